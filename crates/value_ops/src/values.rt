//! An operand that is there, lent or owned.
ghost use Rattle.std.specs.Prelude.{◌≡◌, IfOk};
ghost use Rattle.value_ops.specs.Operand.{value_of};

use flow_value::{NoMemory, Val, copy};
use std::alloc::Global;

/// A value that an operation is given.
#[derive(Drop)]
pub enum Value<'a> {
    /// A value that is only lent.
    Lent(&'a Val),
    /// A value that the operation may keep or change in place.
    Owned(Val),
}

/// The value, lent.
pub fn seen<'b>(one: &'b Value<'_>) -> &'b Val
    ensures { result.now ≡ value_of one.now }
{
    match one {
        Value::Lent(v) => v,
        Value::Owned(v) => v,
    }
}

/// The value itself where it is owned, and a copy where it is lent.
pub fn kept(alloc: Global, one: Value<'_>) -> Result<Val, NoMemory>
    ensures { IfOk result (λ v. v ≡ value_of one.entry) }
{
    match one {
        Value::Lent(v) => copy(alloc, v),
        Value::Owned(v) => Ok(v),
    }
}
