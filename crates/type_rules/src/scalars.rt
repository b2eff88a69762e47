//! Forms over operands of basic types.
ghost use Rattle.std.specs.Prelude.{◌≡◌, ◌||◌, nat_eq};
ghost use Rattle.type_rules.specs.Scalars.{error_of, errs, scalar_number, is_converted, converts, prefix_number, prefixed, is_scalar, is_ordered, are_operands, binary_number, combines};

use crate::head::Outcome;
use crate::lookups::element_of;
use crate::made::there;
use flow_value::Scalar1;
use sisal_tree::{BinaryOperator, PrefixOperator, Scalar};
use type_table::{BOOLEAN, CHARACTER, INTEGER, NULL, Types};
use typed_tree::{binary_operation, convert_operation, prefix_operation};
use value_ops::Operation;

/// `error[t]`
pub fn error_of(ty: usize, operands: &[usize]) -> Option<Outcome>
    ensures { result ≡ error_of ty operands.now }
{
    match operands {
        [] => Some(there(Operation::Error, ty)),
        _ => None,
    }
}

/// `is error(a)`
pub fn errs(operands: &[usize]) -> Option<Outcome>
    ensures { result ≡ errs operands.now }
{
    match operands {
        [_] => Some(there(Operation::Unary(Scalar1::IsError), BOOLEAN)),
        _ => None,
    }
}

fn scalar_number(to: Scalar) -> usize
    ensures { result ≡ scalar_number to }
{
    match to {
        Scalar::Integer => INTEGER,
        Scalar::Boolean => BOOLEAN,
        Scalar::Character => CHARACTER,
    }
}

fn is_converted(to: Scalar, ty: usize) -> bool
    ensures { result ≡ is_converted to ty }
{
    match to {
        Scalar::Integer => ty == INTEGER || ty == BOOLEAN || ty == CHARACTER,
        Scalar::Boolean => ty == BOOLEAN || ty == INTEGER,
        Scalar::Character => ty == CHARACTER || ty == INTEGER,
    }
}

/// `integer(a)` and the other conversions.
pub fn converts(to: Scalar, operands: &[usize]) -> Option<Outcome>
    ensures { result ≡ converts to operands.now }
{
    let [ty] = operands else {
        return None;
    };
    if is_converted(to, *ty) {
        Some(there(convert_operation(to), scalar_number(to)))
    } else {
        None
    }
}

fn prefix_number(operator: PrefixOperator) -> usize
    ensures { result ≡ prefix_number operator }
{
    match operator {
        PrefixOperator::Negate => INTEGER,
        PrefixOperator::Not => BOOLEAN,
    }
}

/// An operator before its operand.
pub fn prefixed(operator: PrefixOperator, operands: &[usize]) -> Option<Outcome>
    ensures { result ≡ prefixed operator operands.now }
{
    let [ty] = operands else {
        return None;
    };
    if *ty == prefix_number(operator) {
        Some(there(prefix_operation(operator), prefix_number(operator)))
    } else {
        None
    }
}

fn is_scalar(ty: usize) -> bool
    ensures { result ≡ is_scalar ty }
{
    ty == INTEGER || ty == BOOLEAN || ty == CHARACTER || ty == NULL
}

fn is_ordered(ty: usize) -> bool
    ensures { result ≡ is_ordered ty }
{
    ty == INTEGER || ty == CHARACTER
}

/// Whether both operands of an operator may be of a type.
fn are_operands(types: &Types, operator: BinaryOperator, ty: usize) -> bool
    ensures { result ≡ are_operands types.now operator ty }
{
    match operator {
        BinaryOperator::Or | BinaryOperator::And => ty == BOOLEAN,
        BinaryOperator::Equal | BinaryOperator::NotEqual => is_scalar(ty),
        BinaryOperator::Less
        | BinaryOperator::LessEqual
        | BinaryOperator::Greater
        | BinaryOperator::GreaterEqual => is_ordered(ty),
        BinaryOperator::Catenate => element_of(types, ty).is_some(),
        BinaryOperator::Plus
        | BinaryOperator::Minus
        | BinaryOperator::Times
        | BinaryOperator::Divide => ty == INTEGER,
    }
}

/// The type of the result of an operator, by that of its operands.
fn binary_number(operator: BinaryOperator, ty: usize) -> usize
    ensures { result ≡ binary_number operator ty }
{
    match operator {
        BinaryOperator::Catenate => ty,
        BinaryOperator::Plus
        | BinaryOperator::Minus
        | BinaryOperator::Times
        | BinaryOperator::Divide => INTEGER,
        _ => BOOLEAN,
    }
}

/// An operator between two operands.
pub fn combines(types: &Types, operator: BinaryOperator, operands: &[usize]) -> Option<Outcome>
    ensures { result ≡ combines types.now operator operands.now }
{
    let [left, right] = operands else {
        return None;
    };
    if *left != *right {
        return None;
    }
    if are_operands(types, operator, *left) {
        Some(there(binary_operation(operator), binary_number(operator, *left)))
    } else {
        None
    }
}
