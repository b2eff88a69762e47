//! The operations that operators, conversions and calls that are built in stand for.
ghost use Rattle.std.specs.Prelude.{◌≡◌};
ghost use Rattle.typed_tree.specs.Operations.{
  binary_operation,
  built_in_operation,
  convert_operation,
  prefix_operation,
};

use crate::built_in::BuiltIn;
use loop_folds::{Scalar1, Scalar2};
use sisal_tree::{BinaryOperator, PrefixOperator, Scalar};
use value_ops::Operation;

/// The operation of an operator before its operand: SISAL Language Reference Manual 1.2, operations.
pub fn prefix_operation(operator: PrefixOperator) -> Operation
    ensures { result ≡ prefix_operation operator }
{
    match operator {
        PrefixOperator::Negate => Operation::Unary(Scalar1::Neg),
        PrefixOperator::Not => Operation::Unary(Scalar1::Not),
    }
}

/// The operation of an operator between two operands; on booleans `|` is the sum and `&` the product.
pub fn binary_operation(operator: BinaryOperator) -> Operation
    ensures { result ≡ binary_operation operator }
{
    match operator {
        BinaryOperator::Or | BinaryOperator::Plus => Operation::Binary(Scalar2::Plus),
        BinaryOperator::And | BinaryOperator::Times => Operation::Binary(Scalar2::Times),
        BinaryOperator::Equal => Operation::Binary(Scalar2::Equal),
        BinaryOperator::NotEqual => Operation::Binary(Scalar2::NotEqual),
        BinaryOperator::Less => Operation::Binary(Scalar2::Less),
        BinaryOperator::LessEqual => Operation::Binary(Scalar2::LessEqual),
        BinaryOperator::Greater => Operation::Swapped(Scalar2::Less),
        BinaryOperator::GreaterEqual => Operation::Swapped(Scalar2::LessEqual),
        BinaryOperator::Catenate => Operation::Catenate,
        BinaryOperator::Minus => Operation::Binary(Scalar2::Minus),
        BinaryOperator::Divide => Operation::Binary(Scalar2::Div),
    }
}

/// The operation of a conversion.
pub fn convert_operation(to: Scalar) -> Operation
    ensures { result ≡ convert_operation to }
{
    match to {
        Scalar::Integer => Operation::Unary(Scalar1::Int),
        Scalar::Boolean => Operation::Unary(Scalar1::Bool),
        Scalar::Character => Operation::Unary(Scalar1::Char),
    }
}

impl BuiltIn {
    /// The operation of a call that is built in.
    pub fn operation(self) -> Operation
        ensures { result ≡ built_in_operation self }
    {
        match self {
            BuiltIn::Mod => Operation::Binary(Scalar2::Mod),
            BuiltIn::Abs => Operation::Unary(Scalar1::Abs),
            BuiltIn::Max => Operation::Binary(Scalar2::Max),
            BuiltIn::Min => Operation::Binary(Scalar2::Min),
            BuiltIn::ArrayFill => Operation::Fill,
            BuiltIn::ArrayAddHigh | BuiltIn::StreamAppend => Operation::AddHigh,
            BuiltIn::ArrayAddLow => Operation::AddLow,
            BuiltIn::ArrayRemoveHigh => Operation::RemoveHigh,
            BuiltIn::ArrayRemoveLow => Operation::RemoveLow,
            BuiltIn::ArraySetLow => Operation::SetLow,
            BuiltIn::ArrayAdjust => Operation::Adjust,
            BuiltIn::ArrayLimitLow => Operation::LimitLow,
            BuiltIn::ArrayLimitHigh => Operation::LimitHigh,
            BuiltIn::ArraySize | BuiltIn::StreamSize => Operation::Size,
            BuiltIn::StreamEmpty => Operation::IsEmpty,
            BuiltIn::StreamFirst => Operation::First,
            BuiltIn::StreamRest => Operation::Rest,
        }
    }
}
