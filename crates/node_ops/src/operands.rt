//! The operands of a node, in order, without the ports that have none.
ghost use Rattle.std.specs.Prelude.{◌≡◌, ◌<◌, ◌∷◌, [], map, length, IfOk, MatchOption};
ghost use Rattle.std.specs.Option.{option_copied};
ghost use Rattle.flow_value.specs.declared.value.Val.{Val};
ghost use Rattle.flow_value.specs.Lent.{operand_value};
ghost use Rattle.value_ops.specs.Arity.{explicit, of_one};
ghost use Rattle.value_ops.specs.Given.{values_in};
ghost use Rattle.value_ops.specs.Operations.{op_value};
ghost use Rattle.graph_meaning.specs.Carried.{filled_from};
ghost use Rattle.node_ops.specs.Operands.{plain};

use flow_value::{Items, NoMemory, Numbers, Operand, Operands, Val};
use std::alloc::Global;
use std::mem;
use value_ops::{Operation, apply};

/// The value of an operand, if there is one.
pub fn seen<'b>(one: &'b Operand<'_>) -> Option<&'b Val>
    ensures { option_copied result ≡ operand_value one.now }
{
    match one {
        Operand::Absent => None,
        Operand::Lent(v) => Some(*v),
        Operand::Owned(v) => Some(v),
    }
}

/// The value, where there is exactly one.
pub fn sole<'b>(ins: &'b [Operand<'_>]) -> Option<&'b Val>
    ensures { MatchOption
        result
        ((f : Val → Val) → of_one f (values_in (map operand_value ins.now)) ≡ explicit)
        (λ a. values_in (map operand_value ins.now) ≡ a.now ∷ []) }
{
    let mut found: Option<&'b Val> = None;
    for one in ins {
        match (found, seen(one)) {
            (Some(_), Some(_)) => return None,
            (None, Some(v)) => found = Some(v),
            _ => {}
        }
    }
    found
}

/// The operands, moved into a list.
pub fn listed<'a>(alloc: Global, ins: &mut [Operand<'a>]) -> Result<Operands<'a>, NoMemory>
    ensures { IfOk result (λ o. o.operands ≡ map operand_value ins.old) }
{
    let mut given = Operands::new(alloc, ins.len())?;
    for port in 0..ins.len() {
        given.push(mem::replace(&mut ins[port], Operand::Absent));
    }
    Ok(given)
}

/// An operation on the values.
pub fn applied(
    alloc: Global,
    operation: &Operation,
    ins: &mut [Operand<'_>],
) -> Result<Val, NoMemory>
    ensures { IfOk result (λ v. v ≡ op_value operation.now (values_in (map operand_value ins.old))) }
{
    apply(alloc, operation, listed(alloc, ins)?)
}

/// The values, those that are lent as copies.
pub fn values(alloc: Global, ins: &mut [Operand<'_>]) -> Result<Items, NoMemory>
    ensures { IfOk result (λ vs. vs ≡ values_in (map operand_value ins.old)) }
{
    match applied(alloc, &Operation::Record, ins)? {
        Val::Rec(items) => Ok(items),
        _ => unreachable!(),
    }
}

/// The ports, from 0, that have an operand.
pub fn filled(alloc: Global, ins: &[Operand<'_>]) -> Result<Numbers, NoMemory>
    requires { length ins.now < 4294967296 }
    ensures { IfOk result (λ ports. ports ≡ filled_from 0 (map plain (map operand_value ins.now))) }
{
    let mut ports = Numbers::new(alloc);
    for port in 0..ins.len() {
        if seen(&ins[port]).is_some() {
            ports.add(port as u32)?;
        }
    }
    Ok(ports)
}
