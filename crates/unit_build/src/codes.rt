//! The opcodes of nodes (IF1 manual M-170, simple and compound nodes).
ghost use Rattle.std.specs.Prelude.{◌≡◌};
ghost use Rattle.lowered_units.specs.Units.{unary_code, binary_code, simple_code, compound_code};

use flow_value::{Scalar1, Scalar2};
use if1_graph::{Compound, Grouping, Simple};

fn unary_code(op: Scalar1) -> u32
    ensures { result ≡ unary_code op }
{
    match op {
        Scalar1::Neg => 137,
        Scalar1::Abs => 117,
        Scalar1::Not => 139,
        Scalar1::Int => 129,
        Scalar1::Bool => 119,
        Scalar1::Char => 121,
        Scalar1::IsError => 130,
    }
}

fn binary_code(op: Scalar2) -> u32
    ensures { result ≡ binary_code op }
{
    match op {
        Scalar2::Plus => 141,
        Scalar2::Minus => 135,
        Scalar2::Times => 152,
        Scalar2::Div => 122,
        Scalar2::Mod => 136,
        Scalar2::Max => 133,
        Scalar2::Min => 134,
        Scalar2::Equal => 124,
        Scalar2::NotEqual => 140,
        Scalar2::Less => 131,
        Scalar2::LessEqual => 132,
    }
}

/// The opcode of a simple node.
pub fn simple_code(op: Simple) -> u32
    ensures { result ≡ simple_code op }
{
    match op {
        Simple::One(f) => unary_code(f),
        Simple::Two(f) => binary_code(f),
        Simple::NoOp => 138,
        Simple::Error => 155,
        Simple::Call => 120,
        Simple::ABuild => 103,
        Simple::AFill => 106,
        Simple::AElement => 105,
        Simple::AReplace => 113,
        Simple::AAddH => 100,
        Simple::AAddL => 101,
        Simple::ARemH => 111,
        Simple::ARemL => 112,
        Simple::ASetL => 115,
        Simple::AAdjust => 102,
        Simple::ALimL => 110,
        Simple::ALimH => 109,
        Simple::ASize => 116,
        Simple::AIsEmpty => 108,
        Simple::ACatenate => 104,
        Simple::FirstValue => 126,
        Simple::RestValues => 150,
        Simple::RBuild => 143,
        Simple::RElements => 144,
        Simple::RReplace => 145,
        Simple::RangeGenerate => 142,
        Simple::AScatter => 114,
        Simple::AGather => 107,
        Simple::FinalValue => 127,
        Simple::Reduce(Grouping::Free) => 149,
        Simple::Reduce(Grouping::Left) => 146,
        Simple::Reduce(Grouping::Right) => 147,
        Simple::Reduce(Grouping::Tree) => 148,
    }
}

/// The opcode of a compound node.
pub fn compound_code(compound: Compound) -> u32
    ensures { result ≡ compound_code compound }
{
    match compound {
        Compound::ForAll => 0,
        Compound::Select => 1,
        Compound::TagCase => 2,
        Compound::LoopA => 3,
        Compound::LoopB => 4,
    }
}
