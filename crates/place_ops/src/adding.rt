//! One more element of an array or a stream that is owned.
ghost use Rattle.std.specs.Prelude.{◌≡◌, ◌∷◌, ◌++◌, [], IfOk, OnOk};
ghost use Rattle.flow_value.specs.Aggregates.{stream_val};
ghost use Rattle.value_ops.specs.Aggregates.{with_last, with_first};
ghost use Rattle.value_ops.specs.Operations.{op_value};
ghost use Rattle.value_ops.specs.declared.operation.Operation.TheVariants as operation;

use flow_value::{Array, Cause, Items, MOST_ELEMENTS, NoMemory, Val, array_of, stream_of};
use std::mem;

/// Makes of `owned`, the array or stream of an AAddH, the one with a value after its last element,
/// or the error that the node gives. On want of memory what stands in `owned` is no longer the
/// operand.
pub fn add_high_taken(owned: &mut Val, v: Val) -> Result<(), NoMemory>
    ensures { OnOk result (owned.new ≡ op_value operation.AddHigh (owned.old ∷ v ∷ [])) }
{
    let value = mem::replace(owned, Val::Null);
    *owned = high_added(value, v)?;
    Ok(())
}

/// The array or stream with a value after its last element: node 100.
pub fn high_added(a: Val, v: Val) -> Result<Val, NoMemory>
    ensures { IfOk result (λ w. w ≡ op_value operation.AddHigh (a ∷ v ∷ [])) }
{
    match a {
        Val::Arr(a) => after_last(a, v),
        Val::Stream(items) => appended(items, v),
        Val::Err(cause) => Ok(Val::Err(cause)),
        _ => Ok(Val::Err(Cause::Explicit)),
    }
}

fn after_last(a: Array, v: Val) -> Result<Val, NoMemory>
    ensures { IfOk result (λ w. w ≡ with_last v a) }
{
    let (lo, mut items) = a.into_parts();
    items.add(v)?;
    Ok(array_of(lo, items))
}

fn appended(items: Items, v: Val) -> Result<Val, NoMemory>
    ensures { IfOk result (λ w. w ≡ stream_val (items ++ v ∷ [])) }
{
    let mut longer = items;
    longer.add(v)?;
    Ok(stream_of(longer))
}

/// The array with a value before its first element: node 101.
pub fn low_added(a: Val, v: Val) -> Result<Val, NoMemory>
    ensures { IfOk result (λ w. w ≡ op_value operation.AddLow (a ∷ v ∷ [])) }
{
    match a {
        Val::Arr(a) => before_first(a, v),
        Val::Err(cause) => Ok(Val::Err(cause)),
        _ => Ok(Val::Err(Cause::Explicit)),
    }
}

fn before_first(a: Array, v: Val) -> Result<Val, NoMemory>
    ensures { IfOk result (λ w. w ≡ with_first v a) }
{
    let (lo, items) = a.into_parts();
    if items.len() >= MOST_ELEMENTS {
        return Ok(Val::Err(Cause::Size));
    }
    match lo.checked_sub(1) {
        Some(lower) => {
            let mut longer = items;
            longer.add_first(v)?;
            Ok(array_of(lower, longer))
        }
        None => Ok(Val::Err(Cause::Bounds)),
    }
}
