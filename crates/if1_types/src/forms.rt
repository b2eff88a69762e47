//! What the number of a type, of a list of types or of a label stands for.

/// What a label stands for. It has types and lists of types by their numbers.
#[derive(Clone, Copy, Debug, PartialEq, Eq)]
pub enum SortForm {
    /// No number of a label.
    Nothing,
    /// A value of this type.
    Value(u32),
    /// A multiple of values of this type.
    Multiple(u32),
    /// A function: the lists of its arguments and of its results.
    Function(u32, u32),
}

/// What a type is. It has types and lists of types by their numbers.
#[derive(Clone, Copy, Debug, PartialEq, Eq)]
pub enum TyForm {
    /// No number of a type.
    Nothing,
    Boolean,
    Character,
    Integer,
    Null,
    /// An array of elements of this type.
    Array(u32),
    /// A stream of elements of this type.
    Stream(u32),
    /// A record: the list of its fields.
    Record(u32),
    /// A union: the list of its tags.
    Union(u32),
}

/// What a list of types is.
#[derive(Clone, Copy, Debug, PartialEq, Eq)]
pub enum ListForm {
    /// The empty list, or no number of a list.
    End,
    /// The first type, and the list of the others.
    Member(u32, u32),
}
