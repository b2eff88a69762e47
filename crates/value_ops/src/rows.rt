//! The value of each operation.
ghost use Rattle.std.specs.Prelude.{◌≡◌, IfOk};
ghost use Rattle.value_ops.specs.Operations.{op_value};
ghost use Rattle.value_ops.specs.Given.{values_in};

use crate::arrays::{adjust, element_of, limit_high, limit_low, set_low, update};
use crate::catenate::catenate;
use crate::ends::{add_high, add_low, first, remove_high, remove_low, rest};
use crate::feed::Feed;
use crate::makers::{array_from, empty_array, fill, stream_from};
use crate::operation::Operation;
use crate::records::{change, field, is_tag, record_from, union_of};
use crate::scalars::{binary, swapped, unary};
use crate::sizes::{is_empty, size};
use flow_value::{Cause, NoMemory, Operands, Val};
use std::alloc::Global;

/// The value of an operation on its operands, lent or owned, where a port without an operand
/// counts for nothing. What is owned is used in place where it can be; what is lent is copied only
/// where it stays in the result.
pub fn apply(alloc: Global, op: &Operation, operands: Operands<'_>) -> Result<Val, NoMemory>
    ensures { IfOk result (λ v. v ≡ op_value op.now (values_in operands.entry.operands)) }
{
    let given = Feed::of(operands);
    match op {
        Operation::Unary(scalar) => Ok(unary(*scalar, given)),
        Operation::Binary(scalar) => Ok(binary(*scalar, given)),
        Operation::Swapped(scalar) => Ok(swapped(*scalar, given)),
        Operation::Error => Ok(Val::Err(Cause::Explicit)),
        Operation::Array => array_from(alloc, given),
        Operation::EmptyArray => Ok(empty_array(alloc, given)),
        Operation::Stream => stream_from(alloc, given),
        Operation::Fill => fill(alloc, given),
        Operation::Element => element_of(alloc, given),
        Operation::Update => update(alloc, given),
        Operation::AddHigh => add_high(alloc, given),
        Operation::AddLow => add_low(alloc, given),
        Operation::RemoveHigh => remove_high(alloc, given),
        Operation::RemoveLow => remove_low(alloc, given),
        Operation::SetLow => set_low(alloc, given),
        Operation::Adjust => adjust(alloc, given),
        Operation::LimitLow => Ok(limit_low(given)),
        Operation::LimitHigh => Ok(limit_high(given)),
        Operation::Size => Ok(size(given)),
        Operation::IsEmpty => Ok(is_empty(given)),
        Operation::Catenate => catenate(alloc, given),
        Operation::First => first(alloc, given),
        Operation::Rest => rest(alloc, given),
        Operation::Record => record_from(alloc, given),
        Operation::Union(tag) => union_of(alloc, *tag, given),
        Operation::Field(f) => field(alloc, *f, given),
        Operation::Change(places) => change(alloc, places, given),
        Operation::IsTag(tag) => Ok(is_tag(*tag, given)),
    }
}
