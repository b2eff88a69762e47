//! Rows that only look at their operands: nothing but an element that is handed out is copied.
ghost use Rattle.std.specs.Prelude.{◌≡◌, ◌<◌, ◌≤ℤ◌, ◌-ℤ◌, ◌∷◌, [], pos, IfOk, IfSome, length, slice_get, nat_eq};
ghost use Rattle.value_ops.specs.Aggregates.{element, is_place, last_place, natural, or_explicit, place_of};
ghost use Rattle.value_ops.specs.Operations.{op_value};
ghost use Rattle.value_ops.specs.declared.operation.Operation.TheVariants as operation;

use flow_value::{Array, Cause, NoMemory, Val, copy};
use std::alloc::Global;

/// The lower bound of an array: node 110.
pub fn limit_low(a: &Val) -> Val
    ensures { result ≡ op_value operation.LimitLow (a.now ∷ []) }
{
    match a {
        Val::Arr(a) => Val::Int(a.lo()),
        Val::Err(cause) => Val::Err(*cause),
        _ => Val::Err(Cause::Explicit),
    }
}

/// The last place of an array: node 109.
pub fn limit_high(a: &Val) -> Val
    ensures { result ≡ op_value operation.LimitHigh (a.now ∷ []) }
{
    match a {
        Val::Arr(a) => Val::Int(last_in(a)),
        Val::Err(cause) => Val::Err(*cause),
        _ => Val::Err(Cause::Explicit),
    }
}

fn last_in(a: &Array) -> i64
    ensures { result ≡ last_place a.now }
{
    let count = a.as_slice().len();
    (i128::from(a.lo()) + count as i128 - 1) as i64
}

/// The number of elements of an array or a stream: node 116.
pub fn size(a: &Val) -> Val
    ensures { result ≡ op_value operation.Size (a.now ∷ []) }
{
    match a {
        Val::Arr(a) => Val::Int(a.as_slice().len() as i64),
        Val::Stream(items) => Val::Int(items.as_slice().len() as i64),
        Val::Err(cause) => Val::Err(*cause),
        _ => Val::Err(Cause::Explicit),
    }
}

/// Whether an array or a stream has no element: node 108.
pub fn is_empty(a: &Val) -> Val
    ensures { result ≡ op_value operation.IsEmpty (a.now ∷ []) }
{
    match a {
        Val::Arr(a) => Val::Bool(a.len() == 0),
        Val::Stream(items) => Val::Bool(items.len() == 0),
        Val::Err(cause) => Val::Err(*cause),
        _ => Val::Err(Cause::Explicit),
    }
}

/// A copy of the first element of a stream, or `error(empty)`: node 126.
pub fn first(alloc: Global, s: &Val) -> Result<Val, NoMemory>
    ensures { IfOk result (λ v. v ≡ op_value operation.First (s.now ∷ [])) }
{
    match s {
        Val::Stream(items) => match items.as_slice() {
            [] => Ok(Val::Err(Cause::Empty)),
            [one, ..] => copy(alloc, one),
        },
        Val::Err(cause) => Ok(Val::Err(*cause)),
        _ => Ok(Val::Err(Cause::Explicit)),
    }
}

/// A copy of this field of a record, counted from 0: an output of node 144.
pub fn field(alloc: Global, r: &Val, place: u32) -> Result<Val, NoMemory>
    ensures { IfOk result (λ v. v ≡ op_value (operation.Field place) (r.now ∷ [])) }
{
    match r {
        Val::Rec(fields) => field_of(alloc, fields.as_slice(), place),
        Val::Err(cause) => Ok(Val::Err(*cause)),
        _ => Ok(Val::Err(Cause::Explicit)),
    }
}

fn field_of(alloc: Global, fields: &[Val], place: u32) -> Result<Val, NoMemory>
    ensures { IfOk result (λ v. v ≡ or_explicit (slice_get fields.now place)) }
{
    match fields.get(place as usize) {
        Some(one) => copy(alloc, one),
        None => Ok(Val::Err(Cause::Explicit)),
    }
}

/// A copy of the element of an array at a place, or `error(bounds)`: node 105.
pub fn element(alloc: Global, a: &Val, i: &Val) -> Result<Val, NoMemory>
    ensures { IfOk result (λ v. v ≡ op_value operation.Element (a.now ∷ i.now ∷ [])) }
{
    match (a, i) {
        (Val::Arr(a), Val::Int(place)) => element_at(alloc, a, *place),
        (Val::Err(cause), _) => Ok(Val::Err(*cause)),
        (_, Val::Err(cause)) => Ok(Val::Err(*cause)),
        _ => Ok(Val::Err(Cause::Explicit)),
    }
}

fn element_at(alloc: Global, a: &Array, place: i64) -> Result<Val, NoMemory>
    ensures { IfOk result (λ v. v ≡ element a.now place) }
{
    match place_in(a, place) {
        Some(n) => copy(alloc, a.at(n)),
        None => Ok(Val::Err(Cause::Bounds)),
    }
}

/// How far a place of the array is above its lower bound.
fn place_in(a: &Array, place: i64) -> Option<usize>
    ensures place { result ≡ place_of a.now place }
    ensures within { IfSome result (λ n. n < length a.now.items) }
{
    if is_place_in(a, place) {
        Some(natural_of(i128::from(place) - i128::from(a.lo())))
    } else {
        None
    }
}

fn is_place_in(a: &Array, place: i64) -> bool
    ensures { result ≡ is_place a.now place }
{
    a.lo() <= place && place <= last_in(a)
}

/// A whole number from 0 on, and 0 below.
fn natural_of(z: i128) -> usize
    requires { z ≤ℤ pos 18446744073709551615 }
    ensures { result ≡ natural z }
{
    if z < 0 { 0 } else { z as usize }
}
