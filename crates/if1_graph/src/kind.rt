//! The kinds of types, by the codes of their lines (IF1 manual M-170, type table).
ghost use Rattle.std.specs.Prelude.{◌≡◌};
ghost use Rattle.if1_graph.specs.Kinds.{kind_at, basic_at};

/// What the line of a type says.
#[derive(Clone, Copy, Debug, PartialEq, Eq)]
pub enum TypeKind {
    /// An array of an element type.
    Array,
    /// A basic type.
    Basic,
    /// A field of a record, and the next one.
    Field,
    /// A function of a tuple of arguments and a tuple of results.
    Function,
    /// A multiple of an element type.
    Multiple,
    /// A record from its first field on.
    Record,
    /// A stream of an element type.
    Stream,
    /// A tag of a union, and the next one.
    Tag,
    /// A member of a tuple, and the next one.
    Tuple,
    /// A union from its first tag on.
    Union,
}

/// A basic type.
#[derive(Clone, Copy, Debug, PartialEq, Eq)]
pub enum Basic {
    /// Booleans.
    Boolean,
    /// Characters.
    Character,
    /// Real numbers of double width.
    Double,
    /// Integers.
    Integer,
    /// The one value `nil`.
    Null,
    /// Real numbers.
    Real,
    /// Any type.
    Wild,
}

/// The kind of type of a code.
pub fn kind_of(code: u32) -> Option<TypeKind>
    ensures { result ≡ kind_at code }
{
    match code {
        0 => Some(TypeKind::Array),
        1 => Some(TypeKind::Basic),
        2 => Some(TypeKind::Field),
        3 => Some(TypeKind::Function),
        4 => Some(TypeKind::Multiple),
        5 => Some(TypeKind::Record),
        6 => Some(TypeKind::Stream),
        7 => Some(TypeKind::Tag),
        8 => Some(TypeKind::Tuple),
        9 => Some(TypeKind::Union),
        _ => None,
    }
}

/// The basic type of a code.
pub fn basic_of(code: u32) -> Option<Basic>
    ensures { result ≡ basic_at code }
{
    match code {
        0 => Some(Basic::Boolean),
        1 => Some(Basic::Character),
        2 => Some(Basic::Double),
        3 => Some(Basic::Integer),
        4 => Some(Basic::Null),
        5 => Some(Basic::Real),
        6 => Some(Basic::Wild),
        _ => None,
    }
}
