//! The memory of an empty `Vec` whose places have several owners for a while, each with a range of its own to write, also
//! in other threads. It comes back as that `Vec` with what was written: no place is touched before it is written, no element
//! moves, nothing is allocated, and nothing is counted or flagged at run time.
#![tactic(auto)]

ghost use Rattle.std.specs.Prelude.{◌≡◌, ℕ, ◌+◌, ◌≤◌, List, length, replicate, map, slice_get, slice_set, Some, IsTrue};
ghost use Rattle.std.specs.Vec.{vec_len, vec_capacity};
ghost use Rattle.std.specs.List.{list_all};
ghost use Rattle.segment.specs.Places.{Place, away, unwritten, written, is_here, is_written, RoomView, SegmentView, IsOf, room_code, segment_code};
ghost use Rattle.segment.specs.Runs.{part, spliced};

use std::alloc::Global;
use std::marker::Model;

mod run;

use run::{Run, Shell};

/// Places in the memory of a `Vec`, ranges of which are away as segments. It cannot be dropped: it ends by [`Room::seal`], once
/// every place is written, or by [`Room::abandon`]. Contracts see it as where its places begin, and for each place whether it is
/// away, unwritten, or written and with what.
pub struct Room<T> {
    run: Run<T>,
    shell: Shell<T, Global>,
    count: usize,
}

impl<T> Model for Room<T> {
    ghost Value = { RoomView T };

    ghost coded = { room_code T.code };

    ghost view = { λ r. record { start = r.run.at; places = r.run.places } };

    ghost invariant = { λ r. (r.run.at ≡ r.shell.at) × (length r.run.places ≡ r.shell.len) × (r.count ≡ r.shell.len) };
}

/// A range of a room's places, which its owner writes. It cannot be dropped: it goes back by [`Room::join`]. Contracts
/// see it as where its room begins, how many places into the room it begins, and its places.
pub struct Segment<T> {
    run: Run<T>,
    from: usize,
}

impl<T> Model for Segment<T> {
    ghost Value = { SegmentView T };

    ghost coded = { segment_code T.code };

    ghost view = { λ s. record { start = s.run.start; from = s.from; places = s.run.places } };

    ghost invariant = { λ s. s.run.offset ≡ s.from };
}

impl<T> Room<T> {
    /// The room of the first `count` places in the memory of an empty `Vec`, each of which is unwritten. None is touched.
    pub fn new(mut empty: Vec<T>, count: usize) -> Room<T>
        requires empty { vec_len empty ≡ 0 }
        requires fits { count ≤ vec_capacity empty }
        ensures unwritten { result.places ≡ replicate count unwritten }
    {
        let at = empty.as_mut_ptr();
        let (run, shell) = run::detach(empty, at, count);
        Room { run, shell, count }
    }

    /// Cuts out the `count` places from `from` on, as they are. They are away until they are joined again.
    pub fn cut(&mut self, from: usize, count: usize) -> Segment<T>
        requires fits { from + count ≤ length self.old.places }
        ensures of { IsOf self.old result }
        ensures from { result.from ≡ from }
        ensures part { result.places ≡ part self.old.places from count }
        ensures rest { self.new ≡ record self.old { places = spliced self.old.places from (replicate count away) } }
    {
        let run = self.run.cut(from, count);
        Segment { run, from }
    }

    /// Takes a segment of this room back, with what was written in it.
    pub fn join(&mut self, segment: Segment<T>)
        requires of { IsOf self.old segment }
        ensures back { self.new ≡ record self.old { places = spliced self.old.places segment.from segment.places } }
    {
        let Segment { run, from } = segment;
        self.run.join(run, from);
    }

    /// The `Vec` of what was written, once every place is. No element moves.
    pub fn seal(self) -> Vec<T>
        requires written { IsTrue (list_all is_written self.places) }
        ensures items { map written result.items ≡ self.places }
    {
        let Room { run, shell, count } = self;
        run::attach(run, shell, count)
    }

    /// Lets a room go that is not wanted any more, once every place is back. Nobody knows which places were written, so
    /// what was is not dropped, and the memory that it has of its own is not freed.
    pub fn abandon(self)
    where
        T: Drop,
        requires here { IsTrue (list_all is_here self.places) }
    {
        let Room {
            run,
            shell,
            count: _,
        } = self;
        run::release(run, shell).destroy_empty();
    }
}

impl<T> Segment<T> {
    /// Writes a place that is unwritten, counted from the segment's first.
    pub fn write(&mut self, place: usize, value: T)
        requires unwritten { slice_get self.old.places place ≡ Some unwritten }
        ensures written { self.new ≡ record self.old { places = slice_set self.old.places place (written value) } }
    {
        self.run.write(place, value);
    }
}
