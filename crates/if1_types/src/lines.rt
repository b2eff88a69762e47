//! Kinds of lines of which lists consist.
ghost use Rattle.std.specs.Prelude.{◌≡◌};
ghost use Rattle.if1_graph.specs.Types as types;
ghost use Rattle.if1_types.specs.Tables.{is_line};

use if1_graph::TypeKind;

/// The kind of lines that a list consists of.
#[derive(Clone, Copy)]
pub enum Line {
    /// The fields of a record.
    Field,
    /// The tags of a union.
    Tag,
    /// The members of a tuple.
    Tuple,
}

/// Whether a line of a type table is of this kind.
pub fn is_line(line: Line, kind: Option<TypeKind>) -> bool
    ensures { result ≡ is_line line kind }
{
    match line {
        Line::Field => is_field(kind),
        Line::Tag => is_tag(kind),
        Line::Tuple => is_tuple(kind),
    }
}

fn is_field(kind: Option<TypeKind>) -> bool
    ensures { result ≡ types.is_field kind }
{
    match kind {
        Some(TypeKind::Field) => true,
        _ => false,
    }
}

fn is_tag(kind: Option<TypeKind>) -> bool
    ensures { result ≡ types.is_tag kind }
{
    match kind {
        Some(TypeKind::Tag) => true,
        _ => false,
    }
}

fn is_tuple(kind: Option<TypeKind>) -> bool
    ensures { result ≡ types.is_tuple kind }
{
    match kind {
        Some(TypeKind::Tuple) => true,
        _ => false,
    }
}
