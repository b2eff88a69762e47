//! The ends of arrays and streams.
ghost use Rattle.std.specs.Prelude.{◌≡◌, ◌<◌, ◌∷◌, [], ◌++◌, length, drop, IfOk};
ghost use Rattle.flow_value.specs.Aggregates.{stream_val};
ghost use Rattle.flow_value.specs.Bounds.{IsWithin};
ghost use Rattle.value_ops.specs.Aggregates.{with_last, with_first, without_last, without_first, first_of, rest_of};
ghost use Rattle.value_ops.specs.Operand.{value_of, items_of, array_of};
ghost use Rattle.value_ops.specs.Operations.{op_value};

use crate::feed::Feed;
use crate::kinds::{array, list, stream};
use crate::limits::array_limits;
use crate::listed::{Listed, Placed, Sequence, kept_item, kept_items, kept_part, slice_of};
use crate::operation::Operation;
use crate::values::{Value, kept};
use flow_value::{Cause, Items, MOST_ELEMENTS, NoMemory, Val, array_of, stream_of};
use std::alloc::Global;

/// The array or stream with a value after its last element.
pub fn add_high(alloc: Global, given: Feed<'_>) -> Result<Val, NoMemory>
    ensures { IfOk result (λ v. v ≡ op_value Operation.AddHigh given.entry) }
{
    match given.two() {
        Some((a, v)) => match list(a) {
            Ok(Sequence::Array(a)) => high_after(alloc, a, v),
            Ok(Sequence::Stream(items)) => append(alloc, items, v),
            Err(refused) => Ok(refused),
        },
        None => Ok(Val::Err(Cause::Explicit)),
    }
}

fn high_after(alloc: Global, a: Placed<'_>, v: Value<'_>) -> Result<Val, NoMemory>
    ensures { IfOk result (λ w. w ≡ with_last (value_of v.entry) (array_of a.entry)) }
{
    if let Err(error) = array_limits(a.lo, slice_of(&a.items).len() + 1) {
        return Ok(error);
    }
    Ok(array_of(a.lo, with_high(alloc, a.items, v)?))
}

fn append(alloc: Global, items: Listed<'_>, v: Value<'_>) -> Result<Val, NoMemory>
    ensures { IfOk result (λ w. w ≡ stream_val (items_of items.entry ++ value_of v.entry ∷ [])) }
{
    if slice_of(&items).len() >= MOST_ELEMENTS {
        return Ok(Val::Err(Cause::Size));
    }
    Ok(stream_of(with_high(alloc, items, v)?))
}

fn with_high(alloc: Global, items: Listed<'_>, v: Value<'_>) -> Result<Items, NoMemory>
    ensures { IfOk result (λ vs. vs ≡ items_of items.entry ++ value_of v.entry ∷ []) }
{
    let mut longer = kept_items(alloc, items)?;
    longer.add(kept(alloc, v)?)?;
    Ok(longer)
}

/// The array with a value before its first element.
pub fn add_low(alloc: Global, given: Feed<'_>) -> Result<Val, NoMemory>
    ensures { IfOk result (λ v. v ≡ op_value Operation.AddLow given.entry) }
{
    match given.two() {
        Some((a, v)) => match array(a) {
            Ok(a) => low_before(alloc, a, v),
            Err(refused) => Ok(refused),
        },
        None => Ok(Val::Err(Cause::Explicit)),
    }
}

fn low_before(alloc: Global, a: Placed<'_>, v: Value<'_>) -> Result<Val, NoMemory>
    ensures { IfOk result (λ w. w ≡ with_first (value_of v.entry) (array_of a.entry)) }
{
    if slice_of(&a.items).len() >= MOST_ELEMENTS {
        return Ok(Val::Err(Cause::Size));
    }
    match a.lo.checked_sub(1) {
        Some(lo) => Ok(array_of(lo, with_low(alloc, a.items, v)?)),
        None => Ok(Val::Err(Cause::Bounds)),
    }
}

fn with_low(alloc: Global, items: Listed<'_>, v: Value<'_>) -> Result<Items, NoMemory>
    ensures { IfOk result (λ vs. vs ≡ value_of v.entry ∷ items_of items.entry) }
{
    let mut longer = kept_items(alloc, items)?;
    longer.add_first(kept(alloc, v)?)?;
    Ok(longer)
}

/// The array without its last element.
pub fn remove_high(alloc: Global, given: Feed<'_>) -> Result<Val, NoMemory>
    ensures { IfOk result (λ v. v ≡ op_value Operation.RemoveHigh given.entry) }
{
    match given.one() {
        Some(a) => match array(a) {
            Ok(a) => cut_high(alloc, a),
            Err(refused) => Ok(refused),
        },
        None => Ok(Val::Err(Cause::Explicit)),
    }
}

fn cut_high(alloc: Global, a: Placed<'_>) -> Result<Val, NoMemory>
    ensures { IfOk result (λ v. v ≡ without_last (array_of a.entry)) }
{
    let count = slice_of(&a.items).len();
    if count == 0 {
        return Ok(Val::Err(Cause::Empty));
    }
    Ok(array_of(a.lo, kept_part(alloc, a.items, 0, count - 1)?))
}

/// The array from one place higher without its first element.
pub fn remove_low(alloc: Global, given: Feed<'_>) -> Result<Val, NoMemory>
    ensures { IfOk result (λ v. v ≡ op_value Operation.RemoveLow given.entry) }
{
    match given.one() {
        Some(a) => match array(a) {
            Ok(a) => cut_low(alloc, a),
            Err(refused) => Ok(refused),
        },
        None => Ok(Val::Err(Cause::Explicit)),
    }
}

fn cut_low(alloc: Global, a: Placed<'_>) -> Result<Val, NoMemory>
    requires { IsWithin a.lo (items_of a.items) }
    ensures { IfOk result (λ v. v ≡ without_first (array_of a.entry)) }
{
    if slice_of(&a.items).is_empty() {
        return Ok(Val::Err(Cause::Empty));
    }
    match a.lo.checked_add(1) {
        Some(lo) => Ok(array_of(lo, kept_rest(alloc, a.items)?)),
        None => Ok(Val::Err(Cause::Bounds)),
    }
}

fn kept_rest(alloc: Global, items: Listed<'_>) -> Result<Items, NoMemory>
    requires { 0 < length (items_of items) }
    ensures { IfOk result (λ vs. vs ≡ drop 1 (items_of items.entry)) }
{
    let rest = slice_of(&items).len() - 1;
    kept_part(alloc, items, 1, rest)
}

/// The first element of a stream.
pub fn first(alloc: Global, given: Feed<'_>) -> Result<Val, NoMemory>
    ensures { IfOk result (λ v. v ≡ op_value Operation.First given.entry) }
{
    match given.one() {
        Some(s) => match stream(s) {
            Ok(items) => first_item(alloc, items),
            Err(refused) => Ok(refused),
        },
        None => Ok(Val::Err(Cause::Explicit)),
    }
}

fn first_item(alloc: Global, items: Listed<'_>) -> Result<Val, NoMemory>
    ensures { IfOk result (λ v. v ≡ first_of (items_of items.entry)) }
{
    if slice_of(&items).is_empty() {
        return Ok(Val::Err(Cause::Empty));
    }
    kept_item(alloc, items, 0)
}

/// The stream without its first element.
pub fn rest(alloc: Global, given: Feed<'_>) -> Result<Val, NoMemory>
    ensures { IfOk result (λ v. v ≡ op_value Operation.Rest given.entry) }
{
    match given.one() {
        Some(s) => match stream(s) {
            Ok(items) => rest_items(alloc, items),
            Err(refused) => Ok(refused),
        },
        None => Ok(Val::Err(Cause::Explicit)),
    }
}

fn rest_items(alloc: Global, items: Listed<'_>) -> Result<Val, NoMemory>
    ensures { IfOk result (λ v. v ≡ rest_of (items_of items.entry)) }
{
    if slice_of(&items).is_empty() {
        return Ok(Val::Err(Cause::Empty));
    }
    Ok(Val::Stream(kept_rest(alloc, items)?))
}
