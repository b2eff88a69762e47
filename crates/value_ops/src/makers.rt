//! Arrays and streams of given elements.
ghost use Rattle.std.specs.Prelude.{◌≡◌, ℤ, pos, ◌++◌, IfOk, MatchResult, replicate};
ghost use Rattle.flow_value.specs.declared.value.Val.{Val};
ghost use Rattle.flow_value.specs.Aggregates.{array_val};
ghost use Rattle.value_ops.specs.Aggregates.{filled};
ghost use Rattle.value_ops.specs.Operand.{value_of};
ghost use Rattle.value_ops.specs.Operations.{op_value};

use crate::feed::Feed;
use crate::kinds::{integer, integers};
use crate::limits::array_limits;
use crate::operation::Operation;
use crate::places::{natural_of, room};
use crate::values::{Value, kept, seen};
use flow_value::{Cause, Items, MOST_ELEMENTS, NoMemory, Val, array_of, copy, stream_of};
use std::alloc::Global;

/// The array of all but the first operand, from the first.
pub fn array_from(alloc: Global, mut given: Feed<'_>) -> Result<Val, NoMemory>
    ensures { IfOk result (λ v. v ≡ op_value Operation.Array given.entry) }
{
    match given.next() {
        Some(lo) => match integer(seen(&lo)) {
            Ok(lo) => array_of_all(alloc, lo, given),
            Err(refused) => Ok(refused),
        },
        None => Ok(Val::Err(Cause::Explicit)),
    }
}

fn array_of_all(alloc: Global, lo: i64, given: Feed<'_>) -> Result<Val, NoMemory>
    ensures { IfOk result (λ v. v ≡ array_val lo given.entry) }
{
    if let Err(error) = array_limits(lo, given.count()) {
        return Ok(error);
    }
    Ok(array_of(lo, given.all(alloc)?))
}

/// The empty array from 1.
pub fn empty_array(alloc: Global, mut given: Feed<'_>) -> Val
    ensures { result ≡ op_value Operation.EmptyArray given.entry }
{
    match given.next() {
        Some(_) => Val::Err(Cause::Explicit),
        None => array_of(1, Items::new(alloc)),
    }
}

/// The stream of all operands.
pub fn stream_from(alloc: Global, given: Feed<'_>) -> Result<Val, NoMemory>
    ensures { IfOk result (λ v. v ≡ op_value Operation.Stream given.entry) }
{
    Ok(stream_of(given.all(alloc)?))
}

/// An array of one value at each place.
pub fn fill(alloc: Global, given: Feed<'_>) -> Result<Val, NoMemory>
    ensures { IfOk result (λ v. v ≡ op_value Operation.Fill given.entry) }
{
    match given.three() {
        Some((lo, hi, v)) => match integers(seen(&lo), seen(&hi)) {
            Ok((lo, hi)) => fill_places(alloc, lo, hi, v),
            Err(refused) => Ok(refused),
        },
        None => Ok(Val::Err(Cause::Explicit)),
    }
}

fn fill_places(alloc: Global, lo: i64, hi: i64, v: Value<'_>) -> Result<Val, NoMemory>
    ensures { IfOk result (λ w. w ≡ filled (value_of v.entry) lo hi) }
{
    let count = room(lo, hi);
    if count > MOST_ELEMENTS as i128 {
        return Ok(Val::Err(Cause::Size));
    }
    Ok(array_of(lo, repeated(alloc, natural_of(count), v)?))
}

/// So many of a value, of which the last is the operand itself.
fn repeated(alloc: Global, count: usize, v: Value<'_>) -> Result<Items, NoMemory>
    ensures { IfOk result (λ vs. vs ≡ replicate count (value_of v.entry)) }
{
    if count == 0 {
        return Ok(Items::new(alloc));
    }
    let mut items = copies(alloc, count - 1, seen(&v))?;
    items.add(kept(alloc, v)?)?;
    Ok(items)
}

fn copies(alloc: Global, count: usize, v: &Val) -> Result<Items, NoMemory>
    ensures { IfOk result (λ vs. vs ≡ replicate count v.now) }
{
    let mut items = Items::new(alloc);
    for _made in 0..count {
        items.add(copy(alloc, v)?)?;
    }
    Ok(items)
}
