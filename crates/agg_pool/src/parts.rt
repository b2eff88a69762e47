//! What a pool hands out: keys, leases and segments.
ghost use Rattle.std.specs.Prelude.{◌≡◌, slice_get, slice_set, Some};
ghost use Rattle.segment.specs.Places.{unwritten, written};

use flow_value::Val;
use std::marker::Model;

/// Names an entry of a pool.
#[derive(Clone, Copy, Debug, PartialEq, Eq)]
pub struct Key {
    /// The number that contracts know the entry by.
    pub number: usize,
}

/// The right to read a value of a pool, also in another thread. It cannot be dropped: it goes back by
/// `Pool::give_back`. Contracts see its entry's number, the value, and the identity of the loan.
pub struct Lease {
    pub(crate) key: Key,
    pub(crate) lease: lease::Lease<Val>,
}

impl Model for Lease {
    ghost use Rattle.agg_pool.specs.Parts.{Lent, lent_code};
    ghost use Rattle.flow_value.specs.contracts.value.Val as val;

    ghost Value = { Lent };

    ghost coded = { lent_code val.the_row.coded };

    ghost view = { λ l. record { number = l.key.number; value = l.lease.value; id = l.lease.id } };
}

impl Lease {
    /// Reads the value, whatever the pool does meanwhile.
    pub fn get(&self) -> &Val
        ensures value { result.now ≡ self.now.value }
    {
        self.lease.get()
    }
}

/// A range of the places of a new array, which its owner writes, also in another thread. It cannot be dropped: it goes
/// back by `Pool::join_segment`. Contracts see its entry's number, and where it lies in its room.
pub struct Segment {
    pub(crate) key: Key,
    pub(crate) segment: segment::Segment<Val>,
}

impl Model for Segment {
    ghost use Rattle.agg_pool.specs.Parts.{Cut, cut_code};
    ghost use Rattle.flow_value.specs.contracts.value.Val as val;

    ghost Value = { Cut };

    ghost coded = { cut_code val.the_row.coded };

    ghost view = { λ s. record { number = s.key.number; part = s.segment } };
}

impl Segment {
    /// Writes a place that is unwritten, counted from the segment's first.
    pub fn write(&mut self, place: usize, value: Val)
        requires unwritten { slice_get self.old.part.places place ≡ Some unwritten }
        ensures number { self.new.number ≡ self.old.number }
        ensures written { self.new.part ≡ record self.old.part { places = slice_set self.old.part.places place (written value) } }
    {
        self.segment.write(place, value);
    }
}
