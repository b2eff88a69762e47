//! The places of an array, as exact whole numbers.
ghost use Rattle.std.specs.Prelude.{◌≡◌, ◌≤ℤ◌, ◌&&◌, int_le, pos, ◌+ℤ◌, ◌-ℤ◌};
ghost use Rattle.value_ops.specs.Aggregates.{natural, is_place, are_places, last_place};
ghost use Rattle.value_ops.specs.Operand.{array_of};

use crate::listed::{Placed, slice_of};

/// A whole number from 0 on, and 0 below.
pub fn natural_of(z: i128) -> usize
    requires { z ≤ℤ pos 18446744073709551615 }
    ensures { result ≡ natural z }
{
    if z < 0 { 0 } else { z as usize }
}

/// How far `to` is above `from`.
pub fn distance(from: i64, to: i64) -> i128
    ensures { result ≡ to -ℤ from }
{
    i128::from(to) - i128::from(from)
}

/// How many places there are from `lo` to `hi`, or less than 0 where `hi` is less than `lo - 1`.
pub fn room(lo: i64, hi: i64) -> i128
    ensures { result ≡ (hi +ℤ pos 1) -ℤ lo }
{
    i128::from(hi) + 1 - i128::from(lo)
}

/// The last place.
pub fn last_of(a: &Placed<'_>) -> i128
    ensures { result ≡ last_place (array_of a.now) }
{
    i128::from(a.lo) + slice_of(&a.items).len() as i128 - 1
}

/// Whether the array has this place.
pub fn is_place_of(a: &Placed<'_>, place: i64) -> bool
    ensures { result ≡ is_place (array_of a.now) place }
{
    a.lo <= place && i128::from(place) <= last_of(a)
}

/// Whether the array has the places from `lo` to `hi`, or there are none.
pub fn are_places_of(a: &Placed<'_>, lo: i64, hi: i64) -> bool
    ensures { result ≡ are_places (array_of a.now) lo hi }
{
    reaches(a, lo, hi) && is_ordered(lo, hi)
}

fn reaches(a: &Placed<'_>, lo: i64, hi: i64) -> bool
    ensures { result ≡ (int_le a.now.lo lo && int_le hi (last_place (array_of a.now))) }
{
    a.lo <= lo && i128::from(hi) <= last_of(a)
}

fn is_ordered(lo: i64, hi: i64) -> bool
    ensures { result ≡ int_le lo (hi +ℤ pos 1) }
{
    i128::from(lo) <= i128::from(hi) + 1
}
