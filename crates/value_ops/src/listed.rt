//! The elements of an aggregate, lent or owned.
ghost use Rattle.std.specs.Prelude.{◌≡◌, ◌+◌, ◌<◌, ◌≤◌, IfOk, Some, length, take, drop, slice_get};
ghost use Rattle.value_ops.specs.Operand.{items_of};

use flow_value::{Items, NoMemory, Val, copy, copy_all};
use std::alloc::Global;

/// The elements of an array or a stream, or the fields of a record.
#[derive(Drop)]
pub enum Listed<'a> {
    /// Elements that are only lent.
    Lent(&'a [Val]),
    /// Elements that may be kept or changed in place.
    Owned(Items),
}

/// An array, by its lower bound and its elements.
#[derive(Drop)]
pub struct Placed<'a> {
    /// The lower bound.
    pub lo: i64,
    /// The elements in order.
    pub items: Listed<'a>,
}

/// An array or a stream.
#[derive(Drop)]
pub enum Sequence<'a> {
    /// An array.
    Array(Placed<'a>),
    /// The elements of a stream.
    Stream(Listed<'a>),
}

/// The elements, lent.
pub fn slice_of<'b>(items: &'b Listed<'_>) -> &'b [Val]
    ensures { result.now ≡ items_of items.now }
{
    match items {
        Listed::Lent(vs) => vs,
        Listed::Owned(vs) => vs.as_slice(),
    }
}

/// The elements themselves where they are owned, and copies where they are lent.
pub fn kept_items(alloc: Global, items: Listed<'_>) -> Result<Items, NoMemory>
    ensures { IfOk result (λ vs. vs ≡ items_of items.entry) }
{
    match items {
        Listed::Lent(vs) => copy_all(alloc, vs),
        Listed::Owned(vs) => Ok(vs),
    }
}

/// The element at a place, counted from 0, and no other.
pub fn kept_item(alloc: Global, items: Listed<'_>, place: usize) -> Result<Val, NoMemory>
    requires { place < length (items_of items) }
    ensures { IfOk result (λ v. slice_get (items_of items.entry) place ≡ Some v) }
{
    match items {
        Listed::Lent(vs) => copy(alloc, &vs[place]),
        Listed::Owned(vs) => Ok(vs.into_item(place)),
    }
}

/// So many elements from a place on, and no others.
pub fn kept_part(
    alloc: Global,
    items: Listed<'_>,
    from: usize,
    count: usize,
) -> Result<Items, NoMemory>
    requires { from + count ≤ length (items_of items) }
    ensures { IfOk result (λ vs. vs ≡ take count (drop from (items_of items.entry))) }
{
    match items {
        Listed::Lent(vs) => copy_all(alloc, &vs[from..from + count]),
        Listed::Owned(vs) => Ok(part_in_place(vs, from, count)),
    }
}

fn part_in_place(items: Items, from: usize, count: usize) -> Items
    requires { from + count ≤ length items }
    ensures { result ≡ take count (drop from items) }
{
    let mut kept = items;
    let _length = kept.len();
    kept.truncate(from + count);
    kept.drop_first(from);
    kept
}
