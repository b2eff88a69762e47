//! What the table of simple nodes says of operands and outputs.
ghost use Rattle.std.specs.Prelude.{◌≡◌};
ghost use Rattle.std.specs.Option.{option_copied};
ghost use Rattle.if1_graph.specs.Tables.{or_else};
ghost use Rattle.if1_graph.specs.Rows.{row_of, of_rest, operand_of, output_of, is_strict, is_consumed};

use crate::op::Simple;
use flow_value::{Scalar1, Scalar2, item_at};

/// How a node uses an operand.
#[derive(Clone, Copy, Debug, PartialEq, Eq)]
pub enum Use {
    /// Only looks at it. An error there is the error of every output.
    Reads,
    /// Makes its result of it. An error there is the error of every output.
    Changes,
    /// Stores it in its result, an error too.
    Keeps,
    /// Looks at it or hands it on, an error too.
    Passes,
}

/// A type that the table wants at a port or gives at an output.
#[derive(Clone, Copy, Debug, PartialEq, Eq)]
pub enum Want {
    /// An integer.
    Integer,
    /// A boolean.
    Boolean,
    /// A character.
    Character,
    /// An integer or a boolean.
    IntegerOrBoolean,
    /// An integer or a character.
    IntegerOrCharacter,
    /// An integer, a boolean or a character.
    Discrete,
    /// An integer, a boolean, a character or null.
    Scalar,
    /// A value of any type.
    Any,
    /// An array.
    Array,
    /// A stream.
    Stream,
    /// An array or a stream.
    Sequence,
    /// A record.
    Record,
    /// A multiple.
    Multiple,
    /// A multiple of integers.
    Integers,
    /// A multiple of booleans.
    Booleans,
    /// A multiple of what the named reduction takes.
    Reducible,
    /// A literal that names a function.
    Function,
    /// A literal that names a reduction.
    Reduction,
    /// The type at this port.
    Same(u32),
    /// The type of the elements at this port.
    Element(u32),
    /// An array of what is at this port.
    ArrayOf(u32),
    /// An array or a stream of what is at this port.
    SequenceOf(u32),
    /// An array or a stream of the elements at this port.
    SequenceOfElements(u32),
    /// A multiple of the elements at this port.
    Elements(u32),
    /// A record of what is at the ports, or a union of what is at the one port.
    Built,
    /// This argument, from 1, of the named function.
    Argument(u32),
    /// This result, from 1, of the named function.
    Output(u32),
    /// This field, from 1, of the record at port 1.
    FieldOf(u32),
}

/// The operands after those that every node of a row has.
#[derive(Clone, Copy, Debug, PartialEq, Eq)]
pub enum Rest {
    /// None.
    Nothing,
    /// One multiple of booleans, or none.
    Mask,
    /// Any number, each of this type.
    More(Use, Want),
    /// The arguments of the named function.
    Arguments,
    /// The fields of the record, or the one content of the union.
    Fields,
    /// New values for some of the fields of the record at port 1, that of field f at port f + 2.
    NewFields,
}

/// What a node gives.
#[derive(Clone, Copy, Debug, PartialEq, Eq)]
pub enum Gives {
    /// One output.
    One(Want),
    /// Two outputs.
    Pair(Want, Want),
    /// All results of the named function.
    Results,
    /// All fields of the record at port 1.
    AllFields,
}

/// The operands that every node of the operation has, from port 1 on: how each is used and the type
/// that is wanted there.
pub fn operands_of(op: Simple) -> &'static [(Use, Want)]
    ensures { result.now ≡ (row_of op).operands }
{
    match op {
        Simple::One(op) => operands_of_one(op),
        Simple::Two(op) => operands_of_two(op),
        Simple::NoOp => &[(Use::Keeps, Want::Any)],
        Simple::Error | Simple::RBuild => &[],
        Simple::Call => &[(Use::Reads, Want::Function)],
        Simple::ABuild => &[(Use::Reads, Want::Integer)],
        Simple::AFill => &[
            (Use::Reads, Want::Integer),
            (Use::Reads, Want::Integer),
            (Use::Passes, Want::Any),
        ],
        Simple::AElement => &[(Use::Reads, Want::Array), (Use::Reads, Want::Integer)],
        Simple::AReplace => &[
            (Use::Changes, Want::Array),
            (Use::Reads, Want::Integer),
            (Use::Keeps, Want::Element(1)),
        ],
        Simple::AAddH => &[
            (Use::Changes, Want::Sequence),
            (Use::Keeps, Want::Element(1)),
        ],
        Simple::AAddL => &[(Use::Changes, Want::Array), (Use::Keeps, Want::Element(1))],
        Simple::ARemH | Simple::ARemL => &[(Use::Changes, Want::Array)],
        Simple::ASetL => &[(Use::Changes, Want::Array), (Use::Reads, Want::Integer)],
        Simple::AAdjust => &[
            (Use::Changes, Want::Array),
            (Use::Reads, Want::Integer),
            (Use::Reads, Want::Integer),
        ],
        Simple::ALimL | Simple::ALimH => &[(Use::Reads, Want::Array)],
        Simple::ASize | Simple::AIsEmpty | Simple::AScatter => &[(Use::Reads, Want::Sequence)],
        Simple::ACatenate => &[
            (Use::Changes, Want::Sequence),
            (Use::Changes, Want::Same(1)),
        ],
        Simple::FirstValue => &[(Use::Reads, Want::Stream)],
        Simple::RestValues => &[(Use::Changes, Want::Stream)],
        Simple::RElements => &[(Use::Reads, Want::Record)],
        Simple::RReplace => &[(Use::Changes, Want::Record)],
        Simple::RangeGenerate => &[(Use::Reads, Want::Integer), (Use::Reads, Want::Integer)],
        Simple::AGather => &[(Use::Reads, Want::Integer), (Use::Changes, Want::Multiple)],
        Simple::FinalValue => &[(Use::Changes, Want::Multiple)],
        Simple::Reduce(_) => &[
            (Use::Reads, Want::Reduction),
            (Use::Changes, Want::Reducible),
        ],
    }
}

fn operands_of_one(op: Scalar1) -> &'static [(Use, Want)]
    ensures { result.now ≡ (row_of (Simple.One op)).operands }
{
    match op {
        Scalar1::Neg | Scalar1::Abs => &[(Use::Reads, Want::Integer)],
        Scalar1::Not => &[(Use::Reads, Want::Boolean)],
        Scalar1::Int => &[(Use::Reads, Want::Discrete)],
        Scalar1::Bool => &[(Use::Reads, Want::IntegerOrBoolean)],
        Scalar1::Char => &[(Use::Reads, Want::IntegerOrCharacter)],
        Scalar1::IsError => &[(Use::Passes, Want::Any)],
    }
}

fn operands_of_two(op: Scalar2) -> &'static [(Use, Want)]
    ensures { result.now ≡ (row_of (Simple.Two op)).operands }
{
    match op {
        Scalar2::Plus | Scalar2::Times => &[
            (Use::Reads, Want::IntegerOrBoolean),
            (Use::Reads, Want::Same(1)),
        ],
        Scalar2::Minus | Scalar2::Div | Scalar2::Mod | Scalar2::Max | Scalar2::Min => {
            &[(Use::Reads, Want::Integer), (Use::Reads, Want::Integer)]
        }
        Scalar2::Equal | Scalar2::NotEqual => {
            &[(Use::Reads, Want::Scalar), (Use::Reads, Want::Same(1))]
        }
        Scalar2::Less | Scalar2::LessEqual => &[
            (Use::Reads, Want::IntegerOrCharacter),
            (Use::Reads, Want::Same(1)),
        ],
    }
}

/// The operands that may follow those of `operands_of`.
pub fn rest_of(op: Simple) -> Rest
    ensures { result ≡ (row_of op).rest }
{
    match op {
        Simple::Call => Rest::Arguments,
        Simple::ABuild => Rest::More(Use::Keeps, Want::Same(2)),
        Simple::ACatenate => Rest::More(Use::Changes, Want::Same(1)),
        Simple::RBuild => Rest::Fields,
        Simple::RReplace => Rest::NewFields,
        Simple::AGather | Simple::FinalValue | Simple::Reduce(_) => Rest::Mask,
        _ => Rest::Nothing,
    }
}

/// The outputs.
pub fn gives_of(op: Simple) -> Gives
    ensures { result ≡ (row_of op).gives }
{
    match op {
        Simple::One(op) => gives_of_one(op),
        Simple::Two(op) => gives_of_two(op),
        Simple::Error => Gives::One(Want::Any),
        Simple::Call => Gives::Results,
        Simple::ABuild => Gives::One(Want::SequenceOf(2)),
        Simple::AFill => Gives::One(Want::ArrayOf(3)),
        Simple::AElement | Simple::FirstValue | Simple::FinalValue => Gives::One(Want::Element(1)),
        Simple::NoOp
        | Simple::AReplace
        | Simple::AAddH
        | Simple::AAddL
        | Simple::ARemH
        | Simple::ARemL
        | Simple::ASetL
        | Simple::AAdjust
        | Simple::ACatenate
        | Simple::RestValues
        | Simple::RReplace => Gives::One(Want::Same(1)),
        Simple::ALimL | Simple::ALimH | Simple::ASize => Gives::One(Want::Integer),
        Simple::AIsEmpty => Gives::One(Want::Boolean),
        Simple::RBuild => Gives::One(Want::Built),
        Simple::RElements => Gives::AllFields,
        Simple::RangeGenerate => Gives::One(Want::Integers),
        Simple::AScatter => Gives::Pair(Want::Elements(1), Want::Integers),
        Simple::AGather => Gives::One(Want::SequenceOfElements(2)),
        Simple::Reduce(_) => Gives::One(Want::Element(2)),
    }
}

fn gives_of_one(op: Scalar1) -> Gives
    ensures { result ≡ (row_of (Simple.One op)).gives }
{
    match op {
        Scalar1::Neg | Scalar1::Abs | Scalar1::Int => Gives::One(Want::Integer),
        Scalar1::Not | Scalar1::Bool | Scalar1::IsError => Gives::One(Want::Boolean),
        Scalar1::Char => Gives::One(Want::Character),
    }
}

fn gives_of_two(op: Scalar2) -> Gives
    ensures { result ≡ (row_of (Simple.Two op)).gives }
{
    match op {
        Scalar2::Plus | Scalar2::Times => Gives::One(Want::Same(1)),
        Scalar2::Minus | Scalar2::Div | Scalar2::Mod | Scalar2::Max | Scalar2::Min => {
            Gives::One(Want::Integer)
        }
        Scalar2::Equal | Scalar2::NotEqual | Scalar2::Less | Scalar2::LessEqual => {
            Gives::One(Want::Boolean)
        }
    }
}

fn rest_operand(rest: Rest, port: u32) -> Option<(Use, Want)>
    ensures { result ≡ of_rest rest port }
{
    match rest {
        Rest::Nothing => None,
        Rest::Mask => Some((Use::Reads, Want::Booleans)),
        Rest::More(how, want) => Some((how, want)),
        Rest::Arguments => Some((Use::Passes, Want::Argument(port.saturating_sub(1)))),
        Rest::Fields => Some((Use::Keeps, Want::Any)),
        Rest::NewFields => Some((Use::Keeps, Want::FieldOf(port.saturating_sub(1)))),
    }
}

/// The operand of a port, from 1: how the operation uses it and the type that is wanted there. Whether
/// the node may have the port is told by `rest_of`.
pub fn operand_of(op: Simple, port: u32) -> Option<(Use, Want)>
    ensures { result ≡ operand_of op port }
{
    if port == 0 {
        return None;
    }
    first_or(
        item_at(operands_of(op), port as usize - 1),
        rest_operand(rest_of(op), port),
    )
}

fn first_or(operand: Option<&(Use, Want)>, rest: Option<(Use, Want)>) -> Option<(Use, Want)>
    ensures { result ≡ or_else (option_copied operand.entry) rest }
{
    match operand {
        Some(operand) => Some(*operand),
        None => rest,
    }
}

/// The type that an output port, from 1, gives.
pub fn output_of(op: Simple, port: u32) -> Option<Want>
    ensures { result ≡ output_of op port }
{
    match (gives_of(op), port) {
        (Gives::One(want), 1) | (Gives::Pair(want, _), 1) | (Gives::Pair(_, want), 2) => Some(want),
        (Gives::One(_) | Gives::Pair(_, _), _) => None,
        (Gives::Results, _) => Some(Want::Output(port)),
        (Gives::AllFields, _) => Some(Want::FieldOf(port)),
    }
}

/// Whether an error at an operand that is used so is the error of every output.
pub fn is_strict(how: Use) -> bool
    ensures { result ≡ is_strict how }
{
    matches!(how, Use::Reads | Use::Changes)
}

/// Whether an operand that is used so becomes a part of the result.
pub fn is_consumed(how: Use) -> bool
    ensures { result ≡ is_consumed how }
{
    matches!(how, Use::Changes | Use::Keeps)
}
