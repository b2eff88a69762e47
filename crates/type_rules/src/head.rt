//! Forms of expressions, and what they make.
use flow_value::Numbers;
use sisal_tree::{BinaryOperator, PrefixOperator, Scalar};
use type_table::Form;
use typed_tree::BuiltIn;
use value_ops::Operation;

/// A form of expression over operands, each of which has one type (SISAL Language Reference Manual
/// 1.2, expressions). Names are numbers of the text's names; types are numbers of the table.
#[derive(Drop)]
pub enum Head {
    /// `error[t]`, without an operand.
    ErrorOf(usize),
    /// `integer(a)`, `boolean(a)`, `character(a)`.
    Convert(Scalar),
    /// `is error(a)`
    IsError,
    /// `is t(a)`, by the name of the tag.
    IsTag(u32),
    /// An operator before its operand.
    Prefix(PrefixOperator),
    /// An operator between two operands.
    Binary(BinaryOperator),
    /// `a[i]`
    Select,
    /// `a[i: v]`
    Update,
    /// `r.f`, by the name of the field.
    Field(u32),
    /// `r replace [f: v; ..]`, by the names of the fields; the first operand is the record.
    Replace(Numbers),
    /// `array T [lo: v, ..]`, with the type that is named; the first operand is the lower bound.
    Array(Option<usize>),
    /// `array T []`, with the type that is named.
    EmptyArray(Option<usize>),
    /// `stream T [v, ..]`, with the type that is named.
    Stream(Option<usize>),
    /// `record T [f: v; ..]`, with the type that is named, and by the names of the fields.
    Record(Option<usize>, Numbers),
    /// `union T [t: v]`, with the type that is named, and by the name of the tag.
    Union(usize, u32),
    /// A call that is built in.
    BuiltIn(BuiltIn),
}

/// A form over operands that is typed: its operation, and the number of the type that it makes.
#[derive(Drop)]
pub struct Applied {
    /// What it does with the values of its operands.
    pub operation: Operation,
    /// The type of its value.
    pub ty: usize,
}

/// A type that a form makes.
#[derive(Drop)]
pub enum Sort {
    /// The type of this number.
    There(usize),
    /// The type of this form, which may have no number yet.
    Made(Form),
}

/// A form over operands that breaks no rule of its own: its operation, and the type that it makes.
#[derive(Drop)]
pub struct Outcome {
    /// What it does with the values of its operands.
    pub operation: Operation,
    /// The type of its value.
    pub sort: Sort,
}

/// What has elements.
#[derive(Clone, Copy)]
pub enum Container {
    /// An array.
    Array,
    /// A stream.
    Stream,
}
