//! One entry of a pool: a value that may be out on lease, or an array that is being built.
ghost use Rattle.std.specs.Prelude.{◌≡◌, ◌+◌, ◌-◌, ◌^◌, ◌<◌, ◌≤◌, List, length, replicate, map, IsTrue, ℤ};
ghost use Rattle.std.specs.List.{list_all};
ghost use Rattle.flow_value.specs.Bounds.{IsWithinLength, bounded};
ghost use Rattle.flow_value.specs.declared.value.Val.TheVariants as value;
ghost use Rattle.segment.specs.Places.{away, written, is_here, is_written, IsOf};
ghost use Rattle.segment.specs.Runs.{part, spliced};
ghost use Rattle.agg_pool.specs.Entries.{IsWholeAnd, IfWhole, IsPartsAnd, IfParts, IsIdle};
ghost use Rattle.agg_pool.specs.declared.entry.Entry.TheVariants as entry;

use flow_value::{Items, Span, Val};
use lease::{Lease, Owner};
use segment::{Room, Segment};
use std::marker::Model;

/// The places of a new array, and the box that it will lie in. Contracts see the places.
pub struct Building {
    pub(crate) room: Room<Val>,
    pub(crate) place: Box<Val>,
}

impl Model for Building {
    ghost use Rattle.segment.specs.Places.{RoomView, room_code};
    ghost use Rattle.flow_value.specs.contracts.value.Val as val;
    ghost use Rattle.flow_value.specs.declared.value.Val.{Val};

    ghost Value = { RoomView Val };

    ghost coded = { room_code val.the_row.coded };

    ghost view = { λ b. b.room };
}

impl Building {
    /// The array of the places, in its box. No element moves.
    pub(crate) fn seal(self, lo: i64) -> Owner<Val>
        requires written { IsTrue (list_all is_written self.places) }
        requires fits { IsWithinLength lo (length self.places) }
        ensures array { (items : List Val) × (map written items ≡ self.places) × (result.value ≡ value.Arr (bounded lo items)) }
        ensures none_out { result.out ≡ 0 }
    {
        let Building { room, mut place } = self;
        let items = Items::from_vec(room.seal());
        drop(Box::replace(&mut place, Val::Arr(Span::made(lo, items))));
        Owner::new(place)
    }
}

/// An entry of a pool. It cannot be dropped.
pub enum Entry {
    /// A whole value, which may be out on lease.
    Whole(Owner<Val>),
    /// The places of an array, ranges of which may be out as segments.
    Parts(Building),
}

impl Entry {
    pub(crate) fn lend(&mut self) -> Lease<Val>
        requires few { IsWholeAnd self.old (λ w. w.out < 2 ^ 100) }
        ensures one_more { IfWhole self.old (λ w. self.new ≡ entry.Whole (record w { out = w.out + 1 })) }
        ensures lease { IfWhole self.old (λ w. result ≡ record { value = w.value; id = w.id }) }
    {
        let Entry::Whole(owner) = self else {
            unreachable!()
        };
        owner.lend()
    }

    pub(crate) fn give_back(&mut self, lease: Lease<Val>)
        requires of { IsWholeAnd self.old (λ w. lease.id ≡ w.id) }
        ensures was_out { IfWhole self.old (λ w. 0 < w.out) }
        ensures one_fewer { IfWhole self.old (λ w. self.new ≡ entry.Whole (record w { out = w.out - 1 })) }
    {
        let Entry::Whole(owner) = self else {
            unreachable!()
        };
        owner.give_back(lease);
    }

    pub(crate) fn cut(&mut self, from: usize, count: usize) -> Segment<Val>
        requires fits { IsPartsAnd self.old (λ room. from + count ≤ length room.places) }
        ensures part { IfParts self.old (λ room. result ≡ record { start = room.start; from = from; places = part room.places from count }) }
        ensures rest { IfParts self.old (λ room. self.new ≡ entry.Parts (record room { places = spliced room.places from (replicate count away) })) }
    {
        let Entry::Parts(building) = self else {
            unreachable!()
        };
        building.room.cut(from, count)
    }

    pub(crate) fn join(&mut self, segment: Segment<Val>)
        requires of { IsPartsAnd self.old (λ room. IsOf room segment) }
        ensures back { IfParts self.old (λ room. self.new ≡ entry.Parts (record room { places = spliced room.places segment.from segment.places })) }
    {
        let Entry::Parts(building) = self else {
            unreachable!()
        };
        building.room.join(segment);
    }

    /// Lets the entry go.
    pub(crate) fn end(self)
        requires idle { IsIdle self }
    {
        match self {
            Entry::Whole(owner) => drop(owner.take()),
            Entry::Parts(building) => {
                let Building { room, place } = building;
                drop(place);
                room.abandon()
            }
        }
    }
}
