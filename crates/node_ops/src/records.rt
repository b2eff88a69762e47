//! Rows of records, unions and streams whose ports tell more than their values.
ghost use Rattle.std.specs.Prelude.{◌≡◌, ◌<◌, ◌∷◌, [], map, drop, length, IfOk, MatchOption};
ghost use Rattle.flow_value.specs.declared.value.Val.{Val};
ghost use Rattle.flow_value.specs.Lent.{operand_value};
ghost use Rattle.value_ops.specs.Arity.{explicit, of_one};
ghost use Rattle.value_ops.specs.Given.{values_in};
ghost use Rattle.value_ops.specs.Operations.{op_value};
ghost use Rattle.graph_meaning.specs.Carried.{filled_from};
ghost use Rattle.graph_meaning.specs.NodeValues.{union_of};
ghost use Rattle.node_ops.specs.Operands.{plain};
ghost use Rattle.node_ops.specs.Rows.{single_value, field_values};

use crate::operands::{applied, filled, sole, values};
use crate::reading::field;
use crate::row::Single;
use flow_value::{Cause, Held, Items, NoMemory, Numbers, Operand, Outputs, Val, owned, stream_of};
use std::alloc::Global;
use std::mem;
use value_ops::Operation;

/// The operand: node 138.
pub fn same(alloc: Global, ins: &mut [Operand<'_>]) -> Result<Val, NoMemory>
    ensures { IfOk result (λ v. v ≡ single_value Single.Same (map operand_value ins.old)) }
{
    if ins.len() != 1 {
        return same_item(values(alloc, ins)?);
    }
    match owned(alloc, mem::replace(&mut ins[0], Operand::Absent))? {
        Some(value) => Ok(value),
        None => Ok(Val::Err(Cause::Explicit)),
    }
}

fn same_item(items: Items) -> Result<Val, NoMemory>
    ensures { IfOk result (λ v. v ≡ of_one (λ w. w) items) }
{
    match only_item(items) {
        Some(value) => Ok(value),
        None => Ok(Val::Err(Cause::Explicit)),
    }
}

/// The value, where there is exactly one.
fn only_item(items: Items) -> Option<Val>
    ensures { MatchOption
        result
        ((f : Val → Val) → of_one f items ≡ explicit)
        (λ v. items ≡ v ∷ []) }
{
    let mut rest = items;
    let value = rest.pop()?;
    if rest.is_empty() { Some(value) } else { None }
}

/// The stream of all operands but the first: node 103.
pub fn stream_from(alloc: Global, ins: &mut [Operand<'_>]) -> Result<Val, NoMemory>
    ensures { IfOk result (λ v. v ≡ single_value Single.Streamed (map operand_value ins.old)) }
{
    let mut items = values(alloc, ins)?;
    match items.take_first() {
        None => Ok(Val::Err(Cause::Explicit)),
        Some(Val::Err(cause)) => Ok(Val::Err(cause)),
        Some(_) => Ok(stream_of(items)),
    }
}

/// The union of the one port that has an operand: node 143.
pub fn tag(alloc: Global, ins: &mut [Operand<'_>]) -> Result<Val, NoMemory>
    requires { length ins.old < 4294967296 }
    ensures { IfOk result (λ v. v ≡ single_value Single.Tagged (map operand_value ins.old)) }
{
    let tags = filled(alloc, ins)?;
    let items = values(alloc, ins)?;
    tag_item(alloc, tags.as_slice(), items)
}

#[tactic(auto, using(crate::proofs::Listing::union_of_one))]
fn tag_item(alloc: Global, tags: &[u32], items: Items) -> Result<Val, NoMemory>
    ensures { IfOk result (λ v. v ≡ union_of tags.now items) }
{
    match tags {
        [] => Ok(Val::Err(Cause::Explicit)),
        [tag] => tag_one(alloc, *tag, items),
        [_, _, ..] => Ok(Val::Err(Cause::Explicit)),
    }
}

fn tag_one(alloc: Global, tag: u32, items: Items) -> Result<Val, NoMemory>
    ensures { IfOk result (λ v. v ≡ of_one (Val.Uni tag) items) }
{
    match only_item(items) {
        Some(value) => Ok(Val::Uni(tag, Held::new(alloc, value)?)),
        None => Ok(Val::Err(Cause::Explicit)),
    }
}

/// The record of the first operand with the fields changed of the ports that have one: node 145.
pub fn change(alloc: Global, ins: &mut [Operand<'_>]) -> Result<Val, NoMemory>
    requires { length ins.old < 4294967296 }
    ensures { IfOk result (λ v. v ≡ single_value Single.Changed (map operand_value ins.old)) }
{
    let places = places_behind(alloc, ins)?;
    applied(alloc, &Operation::Change(places), ins)
}

fn places_behind(alloc: Global, ins: &[Operand<'_>]) -> Result<Numbers, NoMemory>
    requires { length ins.now < 4294967296 }
    ensures { IfOk result (λ ports. ports ≡ filled_from 0 (drop 1 (map plain (map operand_value ins.now)))) }
{
    match ins {
        [] => Ok(Numbers::new(alloc)),
        [_, rest @ ..] => filled(alloc, rest),
    }
}

/// So many fields of a record: node 144.
pub fn fields(alloc: Global, count: u32, ins: &[Operand<'_>]) -> Result<Outputs, NoMemory>
    ensures { IfOk result (λ outs. outs ≡ field_values count (values_in (map operand_value ins.now))) }
{
    let mut outs = Outputs::with_room(alloc, count as usize)?;
    for place in 0..count {
        outs.add(field_in(alloc, ins, place)?)?;
    }
    Ok(outs)
}

fn field_in(alloc: Global, ins: &[Operand<'_>], place: u32) -> Result<Val, NoMemory>
    ensures { IfOk result (λ v. v ≡ op_value (Operation.Field place) (values_in (map operand_value ins.now))) }
{
    match sole(ins) {
        Some(record) => field(alloc, record, place),
        None => Ok(Val::Err(Cause::Explicit)),
    }
}
