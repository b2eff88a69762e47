//! Rows that take an end off an array or a stream that is owned.
ghost use Rattle.std.specs.Prelude.{◌≡◌, ◌<◌, ◌∷◌, [], drop, length};
ghost use Rattle.value_ops.specs.Aggregates.{without_last, without_first, rest_of};
ghost use Rattle.value_ops.specs.Given.{values_in};
ghost use Rattle.value_ops.specs.Operations.{op_value};
ghost use Rattle.value_ops.specs.declared.operation.Operation.TheVariants as operation;

use crate::operands::none;
use flow_value::{Array, Cause, Items, Val, array_of};
use std::mem;

/// The array without its last element: node 111.
pub fn remove_high(owned: &mut Val, ins: &mut [Option<Val>])
    ensures { owned.new ≡ op_value operation.RemoveHigh (owned.old ∷ values_in ins.old) }
{
    let value = mem::replace(owned, Val::Null);
    *owned = high_off(value, ins);
}

fn high_off(owned: Val, ins: &mut [Option<Val>]) -> Val
    ensures { result ≡ op_value operation.RemoveHigh (owned ∷ values_in ins.old) }
{
    if none(ins) {
        high_removed(owned)
    } else {
        Val::Err(Cause::Explicit)
    }
}

fn high_removed(a: Val) -> Val
    ensures { result ≡ op_value operation.RemoveHigh (a ∷ []) }
{
    match a {
        Val::Arr(a) => cut_high(a),
        Val::Err(cause) => Val::Err(cause),
        _ => Val::Err(Cause::Explicit),
    }
}

fn cut_high(a: Array) -> Val
    ensures { result ≡ without_last a }
{
    let (lo, mut items) = a.into_parts();
    let count = items.len();
    if count == 0 {
        return Val::Err(Cause::Empty);
    }
    items.truncate(count - 1);
    array_of(lo, items)
}

/// The array from one place higher without its first element: node 112.
pub fn remove_low(owned: &mut Val, ins: &mut [Option<Val>])
    ensures { owned.new ≡ op_value operation.RemoveLow (owned.old ∷ values_in ins.old) }
{
    let value = mem::replace(owned, Val::Null);
    *owned = low_off(value, ins);
}

fn low_off(owned: Val, ins: &mut [Option<Val>]) -> Val
    ensures { result ≡ op_value operation.RemoveLow (owned ∷ values_in ins.old) }
{
    if none(ins) {
        low_removed(owned)
    } else {
        Val::Err(Cause::Explicit)
    }
}

fn low_removed(a: Val) -> Val
    ensures { result ≡ op_value operation.RemoveLow (a ∷ []) }
{
    match a {
        Val::Arr(a) => cut_low(a),
        Val::Err(cause) => Val::Err(cause),
        _ => Val::Err(Cause::Explicit),
    }
}

fn cut_low(a: Array) -> Val
    ensures { result ≡ without_first a }
{
    let (lo, items) = a.into_parts();
    if items.is_empty() {
        return Val::Err(Cause::Empty);
    }
    match lo.checked_add(1) {
        Some(higher) => array_of(higher, behind_first(items)),
        None => Val::Err(Cause::Bounds),
    }
}

/// The stream without its first element: node 150.
pub fn rest(owned: &mut Val, ins: &mut [Option<Val>])
    ensures { owned.new ≡ op_value operation.Rest (owned.old ∷ values_in ins.old) }
{
    let value = mem::replace(owned, Val::Null);
    *owned = first_off(value, ins);
}

fn first_off(owned: Val, ins: &mut [Option<Val>]) -> Val
    ensures { result ≡ op_value operation.Rest (owned ∷ values_in ins.old) }
{
    if none(ins) {
        first_removed(owned)
    } else {
        Val::Err(Cause::Explicit)
    }
}

fn first_removed(s: Val) -> Val
    ensures { result ≡ op_value operation.Rest (s ∷ []) }
{
    match s {
        Val::Stream(items) => cut_first(items),
        Val::Err(cause) => Val::Err(cause),
        _ => Val::Err(Cause::Explicit),
    }
}

fn cut_first(items: Items) -> Val
    ensures { result ≡ rest_of items }
{
    if items.is_empty() {
        return Val::Err(Cause::Empty);
    }
    Val::Stream(behind_first(items))
}

fn behind_first(items: Items) -> Items
    requires { 0 < length items }
    ensures { result ≡ drop 1 items }
{
    let mut kept = items;
    kept.drop_first(1);
    kept
}
