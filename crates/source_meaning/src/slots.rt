//! Operands: values, and names whose values are only lent.
ghost use Rattle.std.specs.Prelude.{◌≡◌, List, ◌++◌, IfOk, OnOk};
ghost use Rattle.flow_value.specs.declared.value.Val.TheVariants as val;
ghost use Rattle.flow_value.specs.declared.cause.Cause.TheVariants as cause;
ghost use Rattle.flow_value.specs.Lent.{operand_value};
ghost use Rattle.value_ops.specs.Given.{values_in};
ghost use Rattle.value_ops.specs.Operations.{op_value};
ghost use Rattle.meaning.specs.Words.{value_at};
ghost use Rattle.source_meaning.specs.Slots.{given_values, slot_value, slot_values};

use flow_value::{Cause, Items, NoMemory, Operand, Operands, Seq, Val, item_at, scalar1, scalar2};
use std::alloc::Global;
use value_ops::{Operation, apply};

/// An operand.
#[derive(Drop)]
pub enum Slot {
    /// The value of the name at a level.
    Name(u32),
    /// A value.
    Value(Val),
}

/// Values that are given to what waits for them.
#[derive(Drop)]
pub enum Given {
    /// No value.
    Nothing,
    /// One value.
    One(Val),
    /// A list of values.
    Many(Items),
}

/// Adds values at the end of a list.
pub fn add_values(items: &mut Items, given: Given) -> Result<(), NoMemory>
    ensures { OnOk result (items.new ≡ items.old ++ given_values given) }
{
    match given {
        Given::Nothing => Ok(()),
        Given::One(v) => Ok(items.add(v)?),
        Given::Many(more) => match items.append(more) {
            Ok(()) => Ok(()),
            Err(_) => Err(NoMemory),
        },
    }
}

/// Adds values at the end of operands.
pub fn add_slots(slots: &mut Seq<Slot>, given: Given) -> Result<(), NoMemory>
    ensures { OnOk result ((env : List Val) → slot_values env slots.new ≡ slot_values env slots.old ++ given_values given) }
{
    match given {
        Given::Nothing => Ok(()),
        Given::One(v) => slots.add(Slot::Value(v)),
        Given::Many(more) => add_each(slots, more),
    }
}

fn add_each(slots: &mut Seq<Slot>, values: Items) -> Result<(), NoMemory>
    ensures { OnOk result ((env : List Val) → slot_values env slots.new ≡ slot_values env slots.old ++ values) }
{
    let mut left = values;
    while let Some(v) = left.take_first() {
        slots.add(Slot::Value(v))?;
    }
    Ok(())
}

/// The value of the name at a level.
fn named<'a>(names: &'a [Val], level: u32, missing: &'a Val) -> &'a Val
    requires { missing.now ≡ val.Err cause.Explicit }
    ensures { result.now ≡ value_at names.now level }
{
    item_at(names, level as usize).unwrap_or(missing)
}

/// The value of an operand, where these are the values of the names.
pub fn lent<'a>(names: &'a [Val], slot: &'a Slot, missing: &'a Val) -> &'a Val
    requires { missing.now ≡ val.Err cause.Explicit }
    ensures { result.now ≡ slot_value names.now slot.now }
{
    match slot {
        Slot::Name(level) => named(names, *level, missing),
        Slot::Value(v) => v,
    }
}

/// An operand as it is handed to an operation.
fn handed<'a>(names: &'a [Val], slot: Slot, missing: &'a Val) -> Operand<'a>
    requires { missing.now ≡ val.Err cause.Explicit }
    ensures { operand_value result ≡ Some (slot_value names.now slot) }
{
    match slot {
        Slot::Name(level) => Operand::Lent(named(names, level, missing)),
        Slot::Value(v) => Operand::Owned(v),
    }
}

/// The operands as they are handed to an operation.
fn operands<'a>(
    alloc: Global,
    names: &'a [Val],
    slots: Seq<Slot>,
    missing: &'a Val,
) -> Result<Operands<'a>, NoMemory>
    requires { missing.now ≡ val.Err cause.Explicit }
    ensures { IfOk result (λ o. values_in o.operands ≡ slot_values names.now slots) }
{
    let mut made = Operands::new(alloc, slots.len())?;
    for slot in slots.into_vec() {
        made.push(handed(names, slot, missing));
    }
    Ok(made)
}

/// The value of an operation.
pub fn operate(
    alloc: Global,
    op: &Operation,
    names: &[Val],
    slots: Seq<Slot>,
) -> Result<Val, NoMemory>
    ensures { IfOk result (λ v. v ≡ op_value op.now (slot_values names.now slots)) }
{
    let missing = Val::Err(Cause::Explicit);
    match (op, slots.as_slice()) {
        (Operation::Binary(op), [a, b]) => Ok(scalar2(
            *op,
            lent(names, a, &missing),
            lent(names, b, &missing),
        )),
        (Operation::Unary(op), [a]) => Ok(scalar1(*op, lent(names, a, &missing))),
        _ => {
            let made = operands(alloc, names, slots, &missing)?;
            apply(alloc, op, made)
        }
    }
}
