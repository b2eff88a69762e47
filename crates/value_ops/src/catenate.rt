//! The elements of several arrays or streams in a row.
ghost use Rattle.std.specs.Prelude.{List, ◌≡◌, ◌∷◌, ◌++◌, ◌+◌, ◌≤◌, ◌↔◌, map, length, flat_map, min, IfOk, IfErr, IsTrue, is_some, Some, option_map, MatchOption};
ghost use Rattle.flow_value.specs.declared.value.Val.{Val};
ghost use Rattle.value_ops.specs.Aggregates.{joined, or_explicit, catenated};
ghost use Rattle.value_ops.specs.Arity.{unless_errors};
ghost use Rattle.value_ops.specs.Catenation.{part_in, items_in, all_in, whole_in};
ghost use Rattle.value_ops.specs.Operand.{value_of, items_of};
ghost use Rattle.value_ops.specs.Operations.{op_value};

use crate::feed::Feed;
use crate::kinds::{list, no_error};
use crate::limits::array_limits;
use crate::listed::{Listed, Sequence, kept_items, slice_of};
use crate::operation::Operation;
use crate::values::{Value, seen};
use flow_value::{Cause, Items, MOST_ELEMENTS, NoMemory, Val, array_of, stream_of};
use std::alloc::Global;

/// What is put in a row.
#[derive(Clone, Copy)]
pub enum Joining {
    /// Arrays, the first of which has this lower bound.
    Arrays(i64),
    /// Streams.
    Streams,
}

/// The elements of two or more arrays, or of two or more streams, in order.
pub fn catenate(alloc: Global, mut given: Feed<'_>) -> Result<Val, NoMemory>
    ensures { IfOk result (λ v. v ≡ op_value Operation.Catenate given.entry) }
{
    match given.next() {
        Some(first) => catenate_from(alloc, first, given.values(alloc)?),
        None => Ok(Val::Err(Cause::Explicit)),
    }
}

fn catenate_from(alloc: Global, first: Value<'_>, rest: Vec<Value<'_>>) -> Result<Val, NoMemory>
    ensures { IfOk result (λ v. v ≡ catenated (value_of first.entry ∷ map value_of rest.entry.items)) }
{
    if rest.is_empty() {
        return Ok(Val::Err(Cause::Explicit));
    }
    if let Err(error) = no_error(seen(&first)) {
        return Ok(error);
    }
    if let Err(error) = no_errors(rest.as_slice()) {
        return Ok(error);
    }
    match list(first) {
        Ok(Sequence::Array(a)) => join(alloc, Joining::Arrays(a.lo), a.items, rest),
        Ok(Sequence::Stream(items)) => join(alloc, Joining::Streams, items, rest),
        Err(refused) => Ok(refused),
    }
}

/// Nothing, where none of the values is an error, and else the first error.
fn no_errors(values: &[Value<'_>]) -> Result<(), Val>
    ensures no_error { IfOk result (λ _. (w : Val) → unless_errors (map value_of values.now) w ≡ w) }
    ensures refused { IfErr result (λ e. (w : Val) → e ≡ unless_errors (map value_of values.now) w) }
{
    for one in values {
        if let Err(error) = no_error(seen(one)) {
            return Err(error);
        }
    }
    Ok(())
}

fn join(
    alloc: Global,
    joining: Joining,
    first: Listed<'_>,
    rest: Vec<Value<'_>>,
) -> Result<Val, NoMemory>
    ensures { IfOk result (λ v. v ≡ or_explicit (option_map (whole_in joining) (joined (Some (items_of first.entry)) (all_in joining (map value_of rest.entry.items))))) }
{
    if !are_all(joining, rest.as_slice()) {
        return Ok(Val::Err(Cause::Explicit));
    }
    let count = slice_of(&first)
        .len()
        .saturating_add(count_all(joining, rest.as_slice()));
    if let Err(error) = whole_limits(joining, count) {
        return Ok(error);
    }
    let items = append_all(alloc, joining, kept_items(alloc, first)?, rest)?;
    Ok(whole(joining, items))
}

fn whole_limits(joining: Joining, count: usize) -> Result<(), Val>
    ensures { IfErr result (λ e. (vs : List Val) → count ≡ min (length vs) 18446744073709551615 → e ≡ whole_in joining vs) }
{
    if count > MOST_ELEMENTS {
        return Err(Val::Err(Cause::Size));
    }
    match joining {
        Joining::Arrays(lo) => array_limits(lo, count),
        Joining::Streams => Ok(()),
    }
}

/// Whether all are of the kind.
fn are_all(joining: Joining, values: &[Value<'_>]) -> bool
    ensures { result ≡ is_some (all_in joining (map value_of values.now)) }
{
    for one in values {
        if !is_part(joining, seen(one)) {
            return false;
        }
    }
    true
}

fn is_part(joining: Joining, v: &Val) -> bool
    ensures { result ≡ is_some (part_in joining v.now) }
{
    match (joining, v) {
        (Joining::Arrays(_), Val::Arr(_)) => true,
        (Joining::Streams, Val::Stream(_)) => true,
        _ => false,
    }
}

/// How many elements there are in all, or the greatest number of 64 bits past that.
fn count_all(joining: Joining, values: &[Value<'_>]) -> usize
    ensures { result ≡ min (length (flat_map (items_in joining) (map value_of values.now))) 18446744073709551615 }
{
    let mut sum: usize = 0;
    for one in values {
        sum = sum.saturating_add(count_of(joining, seen(one)));
    }
    sum
}

fn count_of(joining: Joining, v: &Val) -> usize
    ensures { result ≡ length (items_in joining v.now) }
{
    match (joining, v) {
        (Joining::Arrays(_), Val::Arr(a)) => a.len(),
        (Joining::Streams, Val::Stream(items)) => items.len(),
        _ => 0,
    }
}

/// The items, and behind them the elements of all values.
fn append_all(
    alloc: Global,
    joining: Joining,
    items: Items,
    rest: Vec<Value<'_>>,
) -> Result<Items, NoMemory>
    ensures { IfOk result (λ vs. vs ≡ items ++ flat_map (items_in joining) (map value_of rest.entry.items)) }
{
    let mut joined = items;
    let mut values = rest.into_iter();
    while let Some(one) = values.next() {
        joined = appended(joined, kept_items(alloc, part(joining, alloc, one))?)?;
    }
    Ok(joined)
}

fn appended(items: Items, more: Items) -> Result<Items, NoMemory>
    ensures { IfOk result (λ vs. vs ≡ items ++ more) }
{
    let mut joined = items;
    match joined.append(more) {
        Ok(()) => Ok(joined),
        Err(_) => Err(NoMemory),
    }
}

fn part<'a>(joining: Joining, alloc: Global, one: Value<'a>) -> Listed<'a>
    ensures { items_of result ≡ items_in joining (value_of one.entry) }
{
    match (joining, one) {
        (Joining::Arrays(_), Value::Lent(Val::Arr(a))) => Listed::Lent(a.as_slice()),
        (Joining::Arrays(_), Value::Owned(Val::Arr(a))) => Listed::Owned(a.into_parts().1),
        (Joining::Streams, Value::Lent(Val::Stream(items))) => Listed::Lent(items.as_slice()),
        (Joining::Streams, Value::Owned(Val::Stream(items))) => Listed::Owned(items),
        _ => Listed::Owned(Items::new(alloc)),
    }
}

fn whole(joining: Joining, items: Items) -> Val
    ensures { result ≡ whole_in joining items }
{
    match joining {
        Joining::Arrays(lo) => array_of(lo, items),
        Joining::Streams => stream_of(items),
    }
}
