//! Rows on the places of an array that is owned.
ghost use Rattle.std.specs.Prelude.{◌≡◌, ◌<◌, ◌≤◌, ◌+◌, ◌≤ℤ◌, ◌-ℤ◌, ◌+ℤ◌, ◌∷◌, ◌&&◌, [], ℤ, pos, int_le, take, drop, length, IfOk, IfErr, IfSome};
ghost use Rattle.flow_value.specs.declared.value.Val.{Val};
ghost use Rattle.flow_value.specs.Bounds.{Bounded};
ghost use Rattle.flow_value.specs.Scalar.{unless_error, strict2};
ghost use Rattle.value_ops.specs.Aggregates.{updated, place_of, natural, last_place, is_place, are_places, from_bound, adjusted};
ghost use Rattle.value_ops.specs.Arity.{strict, strict3};
ghost use Rattle.value_ops.specs.Given.{values_in};
ghost use Rattle.value_ops.specs.Operations.{op_value};
ghost use Rattle.value_ops.specs.Views.{on_integer, on_array, on_array_integer, on_array_integers};
ghost use Rattle.value_ops.specs.declared.operation.Operation.TheVariants as operation;

use crate::operands::{one, two};
use flow_value::{Array, Cause, Items, Val, array_of};
use std::mem;

/// The array with another element at a place: node 113.
pub fn update(owned: &mut Val, ins: &mut [Option<Val>])
    ensures { owned.new ≡ op_value operation.Update (owned.old ∷ values_in ins.old) }
{
    match ins {
        [i, v] => update_pair(owned, i, v.take()),
        _ => update_by(owned, ins),
    }
}

fn update_pair(owned: &mut Val, i: &Option<Val>, v: Option<Val>)
    ensures { owned.new ≡ op_value operation.Update (owned.old ∷ values_in (i.now ∷ v ∷ [])) }
{
    match (i, v) {
        (Some(i), Some(v)) => update_taken(owned, i, v),
        _ => *owned = Val::Err(Cause::Explicit),
    }
}

/// The same, of another number of ports.
fn update_by(owned: &mut Val, ins: &mut [Option<Val>])
    ensures { owned.new ≡ op_value operation.Update (owned.old ∷ values_in ins.old) }
{
    match two(ins) {
        Some((i, v)) => update_taken(owned, &i, v),
        None => *owned = Val::Err(Cause::Explicit),
    }
}

/// Makes of `owned`, the array of an AReplace, the array with `v` at a place, and else the error
/// that the node gives. It asks for no memory.
#[inline(always)]
pub fn update_taken(owned: &mut Val, i: &Val, v: Val)
    ensures { owned.new ≡ op_value operation.Update (owned.old ∷ i.now ∷ v ∷ []) }
{
    match owned {
        Val::Arr(a) => match i {
            Val::Int(place) => match place_in(a, *place) {
                Some(n) => a.set(n, v),
                None => *owned = Val::Err(Cause::Bounds),
            },
            Val::Err(cause) => *owned = Val::Err(*cause),
            _ => *owned = Val::Err(Cause::Explicit),
        },
        Val::Err(_) => {}
        _ => match i {
            Val::Err(cause) => *owned = Val::Err(*cause),
            _ => *owned = Val::Err(Cause::Explicit),
        },
    }
}

/// The elements of the array from another bound: node 115.
pub fn set_low(owned: &mut Val, ins: &mut [Option<Val>])
    ensures { owned.new ≡ op_value operation.SetLow (owned.old ∷ values_in ins.old) }
{
    let value = mem::replace(owned, Val::Null);
    *owned = low_set(value, ins);
}

fn low_set(owned: Val, ins: &mut [Option<Val>]) -> Val
    ensures { result ≡ op_value operation.SetLow (owned ∷ values_in ins.old) }
{
    match one(ins) {
        Some(lo) => match array_and_integer(owned, &lo) {
            Ok((a, lo)) => from_low(a, lo),
            Err(refused) => refused,
        },
        None => Val::Err(Cause::Explicit),
    }
}

fn from_low(a: Array, lo: i64) -> Val
    ensures { result ≡ from_bound a lo }
{
    let (_, items) = a.into_parts();
    array_of(lo, items)
}

/// Some places of the array: node 102.
pub fn adjust(owned: &mut Val, ins: &mut [Option<Val>])
    ensures { owned.new ≡ op_value operation.Adjust (owned.old ∷ values_in ins.old) }
{
    let value = mem::replace(owned, Val::Null);
    *owned = adjusted_to(value, ins);
}

fn adjusted_to(owned: Val, ins: &mut [Option<Val>]) -> Val
    ensures { result ≡ op_value operation.Adjust (owned ∷ values_in ins.old) }
{
    match two(ins) {
        Some((lo, hi)) => match array_and_integers(owned, &lo, &hi) {
            Ok((a, lo, hi)) => adjust_to(a, lo, hi),
            Err(refused) => refused,
        },
        None => Val::Err(Cause::Explicit),
    }
}

fn adjust_to(a: Array, lo: i64, hi: i64) -> Val
    ensures { result ≡ adjusted a lo hi }
{
    if !are_places_in(&a, lo, hi) {
        return Val::Err(Cause::Bounds);
    }
    let from = natural_of(distance(a.lo(), lo));
    let (_, items) = a.into_parts();
    let count = natural_of(room(lo, hi));
    array_of(lo, part(items, from, count))
}

/// So many elements from a place on, and no others.
fn part(items: Items, from: usize, count: usize) -> Items
    requires { from + count ≤ length items }
    ensures { result ≡ take count (drop from items) }
{
    let mut kept = items;
    let _length = kept.len();
    kept.truncate(from + count);
    kept.drop_first(from);
    kept
}

// ---- the operands by their kinds

/// Nothing, where the value is no error, and else the error.
fn no_error(v: &Val) -> Result<(), Val>
    ensures no_error { IfOk result (λ _. (w : Val) → unless_error v.now w ≡ w) }
    ensures refused { IfErr result (λ e. (w : Val) → e ≡ unless_error v.now w) }
{
    match v {
        Val::Err(cause) => Err(Val::Err(*cause)),
        _ => Ok(()),
    }
}

fn integer(v: &Val) -> Result<i64, Val>
    ensures integer { IfOk result (λ n. v.now ≡ Val.Int n) }
    ensures refused { IfErr result (λ e. (f : ℤ → Val) → e ≡ strict (on_integer f) v.now) }
{
    match v {
        Val::Int(n) => Ok(*n),
        Val::Err(cause) => Err(Val::Err(*cause)),
        _ => Err(Val::Err(Cause::Explicit)),
    }
}

fn array(v: Val) -> Result<Array, Val>
    ensures array { IfOk result (λ a. v ≡ Val.Arr a) }
    ensures refused { IfErr result (λ e. (f : Bounded Val → Val) → e ≡ strict (on_array f) v) }
{
    match v {
        Val::Arr(a) => Ok(a),
        Val::Err(cause) => Err(Val::Err(cause)),
        _ => Err(Val::Err(Cause::Explicit)),
    }
}

/// An array and an integer.
fn array_and_integer(a: Val, i: &Val) -> Result<(Array, i64), Val>
    ensures array { IfOk result (λ p. a ≡ Val.Arr p.0) }
    ensures integer { IfOk result (λ p. i.now ≡ Val.Int p.1) }
    ensures refused { IfErr result (λ e. (f : Bounded Val → ℤ → Val) → e ≡ strict2 (on_array_integer f) a i.now) }
{
    no_error(&a)?;
    no_error(i)?;
    let array = array(a)?;
    let place = integer(i)?;
    Ok((array, place))
}

/// An array and two integers.
fn array_and_integers(a: Val, m: &Val, n: &Val) -> Result<(Array, i64, i64), Val>
    ensures array { IfOk result (λ p. a ≡ Val.Arr p.0) }
    ensures integers { IfOk result (λ p. (m.now ≡ Val.Int p.1) × (n.now ≡ Val.Int p.2)) }
    ensures refused { IfErr result (λ e. (f : Bounded Val → ℤ → ℤ → Val) → e ≡ strict3 (on_array_integers f) a m.now n.now) }
{
    no_error(&a)?;
    no_error(m)?;
    no_error(n)?;
    let array = array(a)?;
    let first = integer(m)?;
    let second = integer(n)?;
    Ok((array, first, second))
}

// ---- the places of an array, as exact whole numbers

/// A whole number from 0 on, and 0 below.
fn natural_of(z: i128) -> usize
    requires { z ≤ℤ pos 18446744073709551615 }
    ensures { result ≡ natural z }
{
    if z < 0 { 0 } else { z as usize }
}

/// How far `to` is above `from`.
fn distance(from: i64, to: i64) -> i128
    ensures { result ≡ to -ℤ from }
{
    i128::from(to) - i128::from(from)
}

/// How many places there are from `lo` to `hi`, or less than 0 where `hi` is less than `lo - 1`.
fn room(lo: i64, hi: i64) -> i128
    ensures { result ≡ (hi +ℤ pos 1) -ℤ lo }
{
    i128::from(hi) + 1 - i128::from(lo)
}

fn last_in(a: &Array) -> i128
    ensures { result ≡ last_place a.now }
{
    i128::from(a.lo()) + a.len() as i128 - 1
}

/// How far a place of the array is above its lower bound.
#[inline(always)]
fn place_in(a: &Array, place: i64) -> Option<usize>
    ensures place { result ≡ place_of a.now place }
    ensures within { IfSome result (λ n. n < length a.now.items) }
{
    if is_place_in(a, place) {
        Some(natural_of(distance(a.lo(), place)))
    } else {
        None
    }
}

#[inline(always)]
fn is_place_in(a: &Array, place: i64) -> bool
    ensures { result ≡ is_place a.now place }
{
    a.lo() <= place && i128::from(place) <= last_in(a)
}

fn are_places_in(a: &Array, lo: i64, hi: i64) -> bool
    ensures { result ≡ are_places a.now lo hi }
{
    reaches(a, lo, hi) && is_ordered(lo, hi)
}

fn reaches(a: &Array, lo: i64, hi: i64) -> bool
    ensures { result ≡ (int_le a.now.lo lo && int_le hi (last_place a.now)) }
{
    a.lo() <= lo && i128::from(hi) <= last_in(a)
}

fn is_ordered(lo: i64, hi: i64) -> bool
    ensures { result ≡ int_le lo (hi +ℤ pos 1) }
{
    i128::from(lo) <= i128::from(hi) + 1
}
