//! Operations that need no list of operands.
ghost use Rattle.std.specs.Prelude.{◌≡◌, ◌∷◌, [], map, IfOk, IfSome};
ghost use Rattle.flow_value.specs.Lent.{operand_value};
ghost use Rattle.value_ops.specs.Given.{values_in};
ghost use Rattle.value_ops.specs.Operations.{op_value};

use crate::operands::seen;
use crate::reading::{element, first, is_empty, limit_high, limit_low, size};
use flow_value::{NoMemory, Operand, Val, scalar1, scalar2};
use std::alloc::Global;
use value_ops::Operation;

/// The value of an operation that only looks at its operands, or nothing.
pub fn looked(
    alloc: Global,
    operation: &Operation,
    ins: &[Operand<'_>],
) -> Result<Option<Val>, NoMemory>
    ensures { IfOk result (λ r. IfSome r (λ v. v ≡ op_value operation.now (values_in (map operand_value ins.now)))) }
{
    match ins {
        [a] => match seen(a) {
            Some(a) => look_at(alloc, operation, a),
            None => Ok(None),
        },
        [a, b] => match (seen(a), seen(b)) {
            (Some(a), Some(b)) => look_at_two(alloc, operation, a, b),
            _ => Ok(None),
        },
        _ => Ok(None),
    }
}

fn look_at(alloc: Global, operation: &Operation, a: &Val) -> Result<Option<Val>, NoMemory>
    ensures { IfOk result (λ r. IfSome r (λ v. v ≡ op_value operation.now (a.now ∷ []))) }
{
    match operation {
        Operation::Unary(scalar) => Ok(Some(scalar1(*scalar, a))),
        Operation::LimitLow => Ok(Some(limit_low(a))),
        Operation::LimitHigh => Ok(Some(limit_high(a))),
        Operation::Size => Ok(Some(size(a))),
        Operation::IsEmpty => Ok(Some(is_empty(a))),
        Operation::First => Ok(Some(first(alloc, a)?)),
        _ => Ok(None),
    }
}

fn look_at_two(
    alloc: Global,
    operation: &Operation,
    a: &Val,
    b: &Val,
) -> Result<Option<Val>, NoMemory>
    ensures { IfOk result (λ r. IfSome r (λ v. v ≡ op_value operation.now (a.now ∷ b.now ∷ []))) }
{
    match operation {
        Operation::Binary(scalar) => Ok(Some(scalar2(*scalar, a, b))),
        Operation::Element => Ok(Some(element(alloc, a, b)?)),
        _ => Ok(None),
    }
}
