//! What a type by number is.

/// What a type is; the parts of an array or stream are named by their number.
#[derive(Clone, Copy, Debug, PartialEq, Eq)]
pub enum TypeForm {
    /// No number of a type.
    Nothing,
    /// `integer`
    Integer,
    /// `boolean`
    Boolean,
    /// `character`
    Character,
    /// `null`
    Null,
    /// An array of elements of this type.
    Array(usize),
    /// A stream of elements of this type.
    Stream(usize),
    /// A record, whose fields are the members of its number.
    Record,
    /// A union, whose tags are the members of its number.
    Union,
}
