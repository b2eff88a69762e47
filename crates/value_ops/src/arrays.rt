//! The places of an array.
ghost use Rattle.std.specs.Prelude.{◌≡◌, ◌<◌, ◌≤◌, ℤ, pos, ◌-ℤ◌, ◌+ℤ◌, IfOk, IfSome, length};
ghost use Rattle.flow_value.specs.declared.value.Val.{Val};
ghost use Rattle.flow_value.specs.Bounds.{IsWithin};
ghost use Rattle.value_ops.specs.Aggregates.{place_of, last_place, places, element, updated, from_bound, adjusted};
ghost use Rattle.value_ops.specs.Operand.{value_of, items_of, array_of};
ghost use Rattle.value_ops.specs.Operations.{op_value};

use crate::feed::Feed;
use crate::kinds::{array, array_and_integer, array_and_integers};
use crate::limits::array_limits;
use crate::listed::{Placed, kept_item, kept_items, kept_part, slice_of};
use crate::operation::Operation;
use crate::places::{are_places_of, distance, is_place_of, last_of, natural_of, room};
use crate::values::{Value, kept, seen};
use flow_value::{Cause, NoMemory, Span, Val, array_of};
use std::alloc::Global;

/// The lower bound of an array.
pub fn limit_low(given: Feed<'_>) -> Val
    ensures { result ≡ op_value Operation.LimitLow given.entry }
{
    match given.one() {
        Some(a) => match array(a) {
            Ok(a) => Val::Int(a.lo),
            Err(refused) => refused,
        },
        None => Val::Err(Cause::Explicit),
    }
}

/// The last place of an array.
pub fn limit_high(given: Feed<'_>) -> Val
    ensures { result ≡ op_value Operation.LimitHigh given.entry }
{
    match given.one() {
        Some(a) => match array(a) {
            Ok(a) => Val::Int(last_of(&a) as i64),
            Err(refused) => refused,
        },
        None => Val::Err(Cause::Explicit),
    }
}

/// The element of an array at a place.
pub fn element_of(alloc: Global, given: Feed<'_>) -> Result<Val, NoMemory>
    ensures { IfOk result (λ v. v ≡ op_value Operation.Element given.entry) }
{
    match given.two() {
        Some((a, i)) => match array_and_integer(a, seen(&i)) {
            Ok((a, place)) => element_at(alloc, a, place),
            Err(refused) => Ok(refused),
        },
        None => Ok(Val::Err(Cause::Explicit)),
    }
}

fn element_at(alloc: Global, a: Placed<'_>, place: i64) -> Result<Val, NoMemory>
    ensures { IfOk result (λ v. v ≡ element (array_of a.entry) place) }
{
    match place_in(&a, place) {
        Some(n) => kept_item(alloc, a.items, n),
        None => Ok(Val::Err(Cause::Bounds)),
    }
}

fn place_in(a: &Placed<'_>, place: i64) -> Option<usize>
    ensures place { result ≡ place_of (array_of a.now) place }
    ensures within { IfSome result (λ n. n < length (items_of a.now.items)) }
{
    if is_place_of(a, place) {
        Some(natural_of(distance(a.lo, place)))
    } else {
        None
    }
}

/// The array with another element at a place.
pub fn update(alloc: Global, given: Feed<'_>) -> Result<Val, NoMemory>
    ensures { IfOk result (λ v. v ≡ op_value Operation.Update given.entry) }
{
    match given.three() {
        Some((a, i, v)) => match array_and_integer(a, seen(&i)) {
            Ok((a, place)) => update_at(alloc, a, place, v),
            Err(refused) => Ok(refused),
        },
        None => Ok(Val::Err(Cause::Explicit)),
    }
}

fn update_at(alloc: Global, a: Placed<'_>, place: i64, v: Value<'_>) -> Result<Val, NoMemory>
    requires { IsWithin a.lo (items_of a.items) }
    ensures { IfOk result (λ w. w ≡ updated (value_of v.entry) (array_of a.entry) place) }
{
    match place_in(&a, place) {
        Some(n) => {
            let lo = a.lo;
            let mut items = kept_items(alloc, a.items)?;
            items.set(n, kept(alloc, v)?);
            Ok(Val::Arr(Span::made(lo, items)))
        }
        None => Ok(Val::Err(Cause::Bounds)),
    }
}

/// The elements of an array from another bound.
pub fn set_low(alloc: Global, given: Feed<'_>) -> Result<Val, NoMemory>
    ensures { IfOk result (λ v. v ≡ op_value Operation.SetLow given.entry) }
{
    match given.two() {
        Some((a, lo)) => match array_and_integer(a, seen(&lo)) {
            Ok((a, lo)) => from_low(alloc, a, lo),
            Err(refused) => Ok(refused),
        },
        None => Ok(Val::Err(Cause::Explicit)),
    }
}

fn from_low(alloc: Global, a: Placed<'_>, lo: i64) -> Result<Val, NoMemory>
    ensures { IfOk result (λ v. v ≡ from_bound (array_of a.entry) lo) }
{
    if let Err(error) = array_limits(lo, slice_of(&a.items).len()) {
        return Ok(error);
    }
    Ok(array_of(lo, kept_items(alloc, a.items)?))
}

/// Some places of an array.
pub fn adjust(alloc: Global, given: Feed<'_>) -> Result<Val, NoMemory>
    ensures { IfOk result (λ v. v ≡ op_value Operation.Adjust given.entry) }
{
    match given.three() {
        Some((a, lo, hi)) => match array_and_integers(a, seen(&lo), seen(&hi)) {
            Ok((a, lo, hi)) => adjust_to(alloc, a, lo, hi),
            Err(refused) => Ok(refused),
        },
        None => Ok(Val::Err(Cause::Explicit)),
    }
}

fn adjust_to(alloc: Global, a: Placed<'_>, lo: i64, hi: i64) -> Result<Val, NoMemory>
    requires { IsWithin a.lo (items_of a.items) }
    ensures { IfOk result (λ v. v ≡ adjusted (array_of a.entry) lo hi) }
{
    if !are_places_of(&a, lo, hi) {
        return Ok(Val::Err(Cause::Bounds));
    }
    let from = natural_of(distance(a.lo, lo));
    let count = natural_of(room(lo, hi));
    Ok(array_of(lo, kept_part(alloc, a.items, from, count)?))
}
