//! The operations of nodes (IF1 manual M-170, simple and compound nodes).
ghost use Rattle.std.specs.Prelude.{◌≡◌};
ghost use Rattle.if1_graph.specs.Ops.{simple_at, compound_at, reducer_at};

use flow_value::{Scalar1, Scalar2};

/// In which order a reduction node combines the elements. The reductions of this profile give one
/// value in each of them.
#[derive(Clone, Copy, Debug, PartialEq, Eq)]
pub enum Grouping {
    /// In any order: the node `Reduce`.
    Free,
    /// From the first on: `RedLeft`.
    Left,
    /// From the last on: `RedRight`.
    Right,
    /// In pairs: `RedTree`.
    Tree,
}

/// What a simple node does, under the name of the node.
#[derive(Clone, Copy, Debug, PartialEq, Eq)]
pub enum Simple {
    /// A scalar operation of one operand.
    One(Scalar1),
    /// A scalar operation of two operands.
    Two(Scalar2),
    /// Gives its operand.
    NoOp,
    /// Gives the error that was written as such.
    Error,
    /// The results of the function that is named by a literal at port 1.
    Call,
    /// An array from a lower bound, or a stream.
    ABuild,
    /// An array from a bound to a bound with one value at each place.
    AFill,
    /// An element of an array.
    AElement,
    /// An array with one element changed.
    AReplace,
    /// One more element after the last.
    AAddH,
    /// One more element before the first of an array.
    AAddL,
    /// An array without its last element.
    ARemH,
    /// An array without its first element.
    ARemL,
    /// An array's elements from another lower bound.
    ASetL,
    /// An array's elements from a bound to a bound.
    AAdjust,
    /// An array's lower bound.
    ALimL,
    /// An array's upper bound.
    ALimH,
    /// The number of elements.
    ASize,
    /// Whether there is no element.
    AIsEmpty,
    /// The elements of two or more arrays, or streams, in order.
    ACatenate,
    /// A stream's first element.
    FirstValue,
    /// A stream without its first element.
    RestValues,
    /// A record of all its fields, or a union of the one filled port.
    RBuild,
    /// The fields of a record, one a port.
    RElements,
    /// A record with some fields changed.
    RReplace,
    /// The multiple of the integers from a bound to a bound.
    RangeGenerate,
    /// The multiple of the elements, and that of their indices.
    AScatter,
    /// An array or stream of the kept elements of a multiple.
    AGather,
    /// The last kept element of a multiple.
    FinalValue,
    /// The reduction, named by a literal at port 1, of the kept elements of a multiple.
    Reduce(Grouping),
}

/// What a compound node does, under the name of the node.
#[derive(Clone, Copy, Debug, PartialEq, Eq)]
pub enum Compound {
    /// The iterations of a body over the elements of a generator's multiples.
    ForAll,
    /// The alternative that a selector names.
    Select,
    /// The arm of a union's tag.
    TagCase,
    /// A loop that tests after its body.
    LoopA,
    /// A loop that tests before its body.
    LoopB,
}

/// What a graph inside a compound node is for.
#[derive(Clone, Copy, Debug, PartialEq, Eq)]
pub enum Part {
    /// Gives the number of the alternative.
    Selector,
    /// One of the alternatives of a Select.
    Alternative,
    /// One of the arms of a TagCase.
    Arm,
    /// Gives the multiples of a ForAll.
    Generator,
    /// Gives the first loop values.
    Initialization,
    /// Says whether a loop goes on.
    Test,
    /// Gives what an iteration gives, or the next loop values.
    Body,
    /// Gives the results from the multiples of all values.
    Returns,
}

/// A reduction, under the name by which a reduction node has it.
#[derive(Clone, Copy, Debug, PartialEq, Eq)]
pub enum Reducer {
    /// The sum of integers.
    Sum,
    /// The product of integers.
    Product,
    /// The least integer.
    Least,
    /// The greatest integer.
    Greatest,
    /// The elements of arrays, or streams, in order.
    Catenate,
}

/// The simple node of an opcode.
pub fn simple_of(op: u32) -> Option<Simple>
    ensures { result ≡ simple_at op }
{
    match op {
        100 => Some(Simple::AAddH),
        101 => Some(Simple::AAddL),
        102 => Some(Simple::AAdjust),
        103 => Some(Simple::ABuild),
        104 => Some(Simple::ACatenate),
        105 => Some(Simple::AElement),
        106 => Some(Simple::AFill),
        107 => Some(Simple::AGather),
        108 => Some(Simple::AIsEmpty),
        109 => Some(Simple::ALimH),
        110 => Some(Simple::ALimL),
        111 => Some(Simple::ARemH),
        112 => Some(Simple::ARemL),
        113 => Some(Simple::AReplace),
        114 => Some(Simple::AScatter),
        115 => Some(Simple::ASetL),
        116 => Some(Simple::ASize),
        117 => Some(Simple::One(Scalar1::Abs)),
        119 => Some(Simple::One(Scalar1::Bool)),
        120 => Some(Simple::Call),
        121 => Some(Simple::One(Scalar1::Char)),
        122 => Some(Simple::Two(Scalar2::Div)),
        124 => Some(Simple::Two(Scalar2::Equal)),
        126 => Some(Simple::FirstValue),
        127 => Some(Simple::FinalValue),
        129 => Some(Simple::One(Scalar1::Int)),
        130 => Some(Simple::One(Scalar1::IsError)),
        131 => Some(Simple::Two(Scalar2::Less)),
        132 => Some(Simple::Two(Scalar2::LessEqual)),
        133 => Some(Simple::Two(Scalar2::Max)),
        134 => Some(Simple::Two(Scalar2::Min)),
        135 => Some(Simple::Two(Scalar2::Minus)),
        136 => Some(Simple::Two(Scalar2::Mod)),
        137 => Some(Simple::One(Scalar1::Neg)),
        138 => Some(Simple::NoOp),
        139 => Some(Simple::One(Scalar1::Not)),
        140 => Some(Simple::Two(Scalar2::NotEqual)),
        141 => Some(Simple::Two(Scalar2::Plus)),
        142 => Some(Simple::RangeGenerate),
        143 => Some(Simple::RBuild),
        144 => Some(Simple::RElements),
        145 => Some(Simple::RReplace),
        146 => Some(Simple::Reduce(Grouping::Left)),
        147 => Some(Simple::Reduce(Grouping::Right)),
        148 => Some(Simple::Reduce(Grouping::Tree)),
        149 => Some(Simple::Reduce(Grouping::Free)),
        150 => Some(Simple::RestValues),
        152 => Some(Simple::Two(Scalar2::Times)),
        155 => Some(Simple::Error),
        _ => None,
    }
}

/// The compound node of an opcode.
pub fn compound_of(op: u32) -> Option<Compound>
    ensures { result ≡ compound_at op }
{
    match op {
        0 => Some(Compound::ForAll),
        1 => Some(Compound::Select),
        2 => Some(Compound::TagCase),
        3 => Some(Compound::LoopA),
        4 => Some(Compound::LoopB),
        _ => None,
    }
}

/// The reduction of a name.
pub fn reducer_of(name: &[u8]) -> Option<Reducer>
    ensures { result ≡ reducer_at name.now }
{
    match name {
        b"sum" => Some(Reducer::Sum),
        b"product" => Some(Reducer::Product),
        b"least" => Some(Reducer::Least),
        b"greatest" => Some(Reducer::Greatest),
        b"catenate" => Some(Reducer::Catenate),
        _ => None,
    }
}
