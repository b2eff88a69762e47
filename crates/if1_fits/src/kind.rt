//! Kinds of types.

/// The outermost form of a type.
#[derive(Clone, Copy, Debug, PartialEq, Eq)]
pub enum Kind {
    /// There is no type.
    Nothing,
    Boolean,
    Character,
    Integer,
    Null,
    Array,
    Stream,
    Record,
    Union,
}
