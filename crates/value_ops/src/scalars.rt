//! The scalar operations.
ghost use Rattle.std.specs.Prelude.{◌≡◌};
ghost use Rattle.value_ops.specs.Operations.{op_value};

use crate::feed::Feed;
use crate::operation::Operation;
use crate::values::seen;
use flow_value::{Cause, Scalar1, Scalar2, Val, scalar1, scalar2};

/// A scalar operation of one operand.
pub fn unary(scalar: Scalar1, given: Feed<'_>) -> Val
    ensures { result ≡ op_value (Operation.Unary scalar) given.entry }
{
    match given.one() {
        Some(a) => scalar1(scalar, seen(&a)),
        None => Val::Err(Cause::Explicit),
    }
}

/// A scalar operation of two operands.
pub fn binary(scalar: Scalar2, given: Feed<'_>) -> Val
    ensures { result ≡ op_value (Operation.Binary scalar) given.entry }
{
    match given.two() {
        Some((a, b)) => scalar2(scalar, seen(&a), seen(&b)),
        None => Val::Err(Cause::Explicit),
    }
}

/// A scalar operation of the second operand and the first.
pub fn swapped(scalar: Scalar2, given: Feed<'_>) -> Val
    ensures { result ≡ op_value (Operation.Swapped scalar) given.entry }
{
    match given.two() {
        Some((a, b)) => scalar2(scalar, seen(&b), seen(&a)),
        None => Val::Err(Cause::Explicit),
    }
}
