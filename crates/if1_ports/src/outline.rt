//! What ports depend on of a type.
ghost use Rattle.std.specs.Prelude.{◌≡◌};
ghost use Rattle.if1_ports.specs.Outlines as spec;

/// What ports depend on of what a label stands for: its kind, and how many members it has.
#[derive(Clone, Copy, Debug, PartialEq, Eq)]
pub enum Outline {
    /// The label stands for nothing.
    Nothing,
    /// The integers.
    Integer,
    /// A stream.
    Stream,
    /// A record of so many fields.
    Record(u32),
    /// A union of so many tags.
    Union(u32),
    /// A function of so many arguments and results.
    Function(u32, u32),
    /// Any other type.
    Other,
}

/// The number of arguments of a function.
pub fn arguments_in(outline: Outline) -> Option<u32>
    ensures { result ≡ spec.arguments_in outline }
{
    match outline {
        Outline::Function(arguments, _) => Some(arguments),
        _ => None,
    }
}

/// The number of results of a function.
pub fn results_in(outline: Outline) -> Option<u32>
    ensures { result ≡ spec.results_in outline }
{
    match outline {
        Outline::Function(_, results) => Some(results),
        _ => None,
    }
}

/// The number of fields of a record.
pub fn fields_in(outline: Outline) -> Option<u32>
    ensures { result ≡ spec.fields_in outline }
{
    match outline {
        Outline::Record(fields) => Some(fields),
        _ => None,
    }
}

/// The number of tags of a union.
pub fn tags_in(outline: Outline) -> Option<u32>
    ensures { result ≡ spec.tags_in outline }
{
    match outline {
        Outline::Union(tags) => Some(tags),
        _ => None,
    }
}

/// Whether it is a stream.
pub fn is_stream(outline: Outline) -> bool
    ensures { result ≡ spec.is_stream_outline outline }
{
    match outline {
        Outline::Stream => true,
        _ => false,
    }
}

/// Whether it is the type of integers.
pub fn is_integer(outline: Outline) -> bool
    ensures { result ≡ spec.is_integer_outline outline }
{
    match outline {
        Outline::Integer => true,
        _ => false,
    }
}
