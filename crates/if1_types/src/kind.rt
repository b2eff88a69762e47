//! Kinds of trees.
ghost use Rattle.std.specs.Prelude.{◌≡◌};
ghost use Rattle.if1_types.specs.Trees as spec;

/// What a tree is: a type, a list of types, or what a label stands for.
#[derive(Clone, Copy, Debug, PartialEq, Eq)]
pub enum Kind {
    Boolean,
    Character,
    Integer,
    Null,
    /// An array, over its elements.
    Array,
    /// A stream, over its elements.
    Stream,
    /// A record, over the list of its fields.
    Record,
    /// A union, over the list of its tags.
    Union,
    /// The list with no member.
    End,
    /// A member, and the list of the others.
    Member,
    /// A value of a type.
    Value,
    /// A multiple of values of a type.
    Multiple,
    /// A function, over the lists of its arguments and results.
    Function,
}

/// The number of a kind among the numbers of a key.
pub fn kind_number(kind: Kind) -> u32
    ensures { result ≡ spec.kind_number kind }
{
    match kind {
        Kind::Boolean => 0,
        Kind::Character => 1,
        Kind::Integer => 2,
        Kind::Null => 3,
        Kind::Array => 4,
        Kind::Stream => 5,
        Kind::Record => 6,
        Kind::Union => 7,
        Kind::End => 8,
        Kind::Member => 9,
        Kind::Value => 10,
        Kind::Multiple => 11,
        Kind::Function => 12,
    }
}

/// The kind of a number, if it is that of a kind.
pub fn kind_by(number: u32) -> Option<Kind>
    ensures { result ≡ spec.kind_by number }
{
    match number {
        0 => Some(Kind::Boolean),
        1 => Some(Kind::Character),
        2 => Some(Kind::Integer),
        3 => Some(Kind::Null),
        4 => Some(Kind::Array),
        5 => Some(Kind::Stream),
        6 => Some(Kind::Record),
        7 => Some(Kind::Union),
        8 => Some(Kind::End),
        9 => Some(Kind::Member),
        10 => Some(Kind::Value),
        11 => Some(Kind::Multiple),
        12 => Some(Kind::Function),
        _ => None,
    }
}
