//! Nodes that add elements to their first operand in place.
ghost use Rattle.std.specs.Prelude.{◌≡◌, ◌∷◌, [], map, IfOk, OnOk};
ghost use Rattle.flow_value.specs.Lent.{operand_value};
ghost use Rattle.value_ops.specs.Given.{values_in};
ghost use Rattle.value_ops.specs.Operations.{op_value};
ghost use Rattle.value_ops.specs.declared.operation.Operation.TheVariants as operation;
ghost use Rattle.place_ops.specs.Taken.{AddsElements, values_taken};

use crate::adding::{high_added, low_added};
use flow_value::{Cause, NoMemory, Operand, Operands, Val, owned};
use if1_graph::Simple;
use std::alloc::Global;
use std::mem;
use value_ops::{Operation, apply};

/// Makes of `owned`, the first operand of an AAddH, AAddL or ACatenate, the output of the node;
/// `ins` has the further operands by their ports from 2 on, and is used up. On want of memory what
/// stands in `owned` is no longer the operand.
pub fn extend_taken(
    alloc: Global,
    op: Simple,
    owned: &mut Val,
    ins: &mut [Operand<'_>],
) -> Result<(), NoMemory>
    requires { AddsElements op }
    ensures { OnOk result (values_taken op owned.old (map operand_value ins.old) ≡ owned.new ∷ []) }
{
    let value = mem::replace(owned, Val::Null);
    *owned = extended(alloc, op, value, ins)?;
    Ok(())
}

#[tactic(auto, using(crate::proofs::Passing::add_high_taken, crate::proofs::Passing::add_low_taken, crate::proofs::Passing::catenate_taken))]
fn extended(alloc: Global, op: Simple, first: Val, ins: &mut [Operand<'_>]) -> Result<Val, NoMemory>
    requires { AddsElements op }
    ensures { IfOk result (λ v. values_taken op first (map operand_value ins.old) ≡ v ∷ []) }
{
    match op {
        Simple::AAddH => add_high(alloc, first, ins),
        Simple::AAddL => add_low(alloc, first, ins),
        Simple::ACatenate => extend_by(alloc, Operation::Catenate, first, ins),
        _ => unreachable!(),
    }
}

fn add_high(alloc: Global, first: Val, ins: &mut [Operand<'_>]) -> Result<Val, NoMemory>
    ensures { IfOk result (λ v. v ≡ op_value operation.AddHigh (first ∷ values_in (map operand_value ins.old))) }
{
    if ins.len() != 1 {
        return extend_by(alloc, Operation::AddHigh, first, ins);
    }
    match owned(alloc, mem::replace(&mut ins[0], Operand::Absent))? {
        Some(v) => high_added(first, v),
        None => Ok(Val::Err(Cause::Explicit)),
    }
}

fn add_low(alloc: Global, first: Val, ins: &mut [Operand<'_>]) -> Result<Val, NoMemory>
    ensures { IfOk result (λ v. v ≡ op_value operation.AddLow (first ∷ values_in (map operand_value ins.old))) }
{
    if ins.len() != 1 {
        return extend_by(alloc, Operation::AddLow, first, ins);
    }
    match owned(alloc, mem::replace(&mut ins[0], Operand::Absent))? {
        Some(v) => low_added(first, v),
        None => Ok(Val::Err(Cause::Explicit)),
    }
}

/// An operation on the first operand and the others, in a list.
fn extend_by(
    alloc: Global,
    operation: Operation,
    first: Val,
    ins: &mut [Operand<'_>],
) -> Result<Val, NoMemory>
    ensures { IfOk result (λ v. v ≡ op_value operation (first ∷ values_in (map operand_value ins.old))) }
{
    apply(alloc, &operation, listed(alloc, first, ins)?)
}

/// The first operand and the others, moved into a list.
fn listed<'a>(alloc: Global, first: Val, ins: &mut [Operand<'a>]) -> Result<Operands<'a>, NoMemory>
    ensures { IfOk result (λ o. o.operands ≡ Some first ∷ map operand_value ins.old) }
{
    let mut given = Operands::new(alloc, ins.len() + 1)?;
    given.push(Operand::Owned(first));
    for port in 0..ins.len() {
        given.push(mem::replace(&mut ins[port], Operand::Absent));
    }
    Ok(given)
}
