//! The pointers below a room. A run of places lies apart from the `Vec` that it comes from, and is cut and joined.
ghost use Rattle.std.specs.Prelude.{◌≡◌, ℕ, ◌+◌, ◌≤◌, List, length, replicate, slice_get, slice_set, map, Some, IsTrue};
ghost use Rattle.std.specs.Coded.{coded_list};
ghost use Rattle.std.specs.List.{list_all};
ghost use Rattle.std.specs.Vec.{vec_len, vec_capacity, vec_ptr};
ghost use denote.RawPtr.{Ptr};
ghost use base.Fml.{ftrue, fex, fsep, feq};
ghost use Rattle.segment.specs.Places.{Place, away, unwritten, written, is_here, is_written, place_code};
ghost use Rattle.segment.specs.Runs.{Extent, extent_code, way_back, cut_owns, place_at, part, spliced};

use std::alloc::Allocator;
use std::marker::{Model, Move, Owns};

/// The places from `at` on, side by side, without those that are away.
pub(crate) struct Run<T> {
    at: *mut T,
    pub(crate) ghost places: { List (Place T) } by { coded_list (place_code T.code) },
    // where the run begins that this was cut out of, and how many places into it this begins
    pub(crate) ghost start: { Ptr },
    pub(crate) ghost offset: { ℕ },
}

impl<T> Model for Run<T> {
    ghost also_owns = { λ r. cut_owns T.row r.start r.offset r.at r.places };
}

/// An empty `Vec` without the first places of its memory. It owns the way back: from these places, with values in the
/// first of them, the `Vec` of these values.
pub(crate) struct Shell<T, A: Allocator> {
    vec: Vec<T, A>,
}

impl<T, A: Allocator> Owns for Shell<T, A> {
    ghost Value = { Extent };

    ghost coded = { extent_code };

    ghost shr_at = { λ _ _ _. ftrue };
}

impl<T, A: Allocator> Move for Shell<T, A> {
    ghost own_val = { λ e vs. way_back T.row e vs (λ xs ws. fex Inside (λ s. fsep (feq (List T.row.Denot) s.vec.items xs) (Fields.own_val s ws))) };
}

/// Takes an empty `Vec` apart into the first `count` places of its memory and the way back.
pub(crate) fn detach<T, A: Allocator>(
    vec: Vec<T, A>,
    at: *mut T,
    count: usize,
) -> (Run<T>, Shell<T, A>)
    requires { (at ≡ vec_ptr vec) × (vec_len vec ≡ 0) × (count ≤ vec_capacity vec) }
    ensures { (result.0.at ≡ at) × (result.0.places ≡ replicate count unwritten) × (result.1 ≡ record { at = at; len = count }) }
{
    (Run { at }, Shell { vec })
}

/// The `Vec` of what was written, when every place is.
pub(crate) fn attach<T, A: Allocator>(run: Run<T>, shell: Shell<T, A>, count: usize) -> Vec<T, A>
    requires { (run.at ≡ shell.at) × (length run.places ≡ shell.len) × (count ≡ shell.len) × IsTrue (list_all is_written run.places) }
    ensures { map written result.items ≡ run.places }
{
    let Run { at: _ } = run;
    let Shell { mut vec } = shell;
    // A `Vec` has no `set_len`: its length is its second word.
    let words = &raw mut vec as *mut usize;
    unsafe {
        *words.add(1) = count;
    }
    vec
}

/// The empty `Vec` again, when every place is here. What was written is forgotten.
pub(crate) fn release<T, A: Allocator>(run: Run<T>, shell: Shell<T, A>) -> Vec<T, A>
    requires { (run.at ≡ shell.at) × (length run.places ≡ shell.len) × IsTrue (list_all is_here run.places) }
    ensures { vec_len result ≡ 0 }
{
    let Run { at: _ } = run;
    let Shell { vec } = shell;
    vec
}

impl<T> Run<T> {
    pub(crate) fn cut(&mut self, from: usize, count: usize) -> Run<T>
        requires { from + count ≤ length self.old.places }
        ensures { (result ≡ record { at = place_at T.row self.old.at from; places = part self.old.places from count; start = self.old.at; offset = from }) × (self.new ≡ record self.old { places = spliced self.old.places from (replicate count away) }) }
    {
        Run {
            at: unsafe { self.at.add(from) },
        }
    }

    pub(crate) fn join(&mut self, other: Run<T>, from: usize)
        requires { (other.start ≡ self.old.at) × (other.offset ≡ from) × (from + length other.places ≤ length self.old.places) }
        ensures { self.new ≡ record self.old { places = spliced self.old.places from other.places } }
    {
        let Run { at: _ } = other;
    }

    /// Writes an unwritten place. Nothing is read there, and nothing dropped.
    pub(crate) fn write(&mut self, i: usize, value: T)
        requires { slice_get self.old.places i ≡ Some unwritten }
        ensures { self.new ≡ record self.old { places = slice_set self.old.places i (written value) } }
    {
        unsafe {
            self.at.add(i).write(value);
        }
    }
}

unsafe impl<T: Send> Send for Run<T> {}

unsafe impl<T: Send, A: Allocator + Send> Send for Shell<T, A> {}
