//! What is known of the lines of a type table.
ghost use Rattle.std.specs.Prelude.{◌≡◌, None, map};
ghost use Rattle.std.specs.List.Sorted.{IsStrictlyIncreasing};
ghost use Rattle.if1_types.specs.Shapes.{trees_in};
ghost use Rattle.if1_types.specs.Tables.{labels_in};
ghost use Rattle.if1_types.specs.Finds as spec;

use crate::lines::{Line, is_line};
use crate::shapes::Shapes;
use flow_value::{Numbers, Seq, item_at};
use if1_graph::{TypeEntry, TypeKind, kind_of};

/// What is known of a type, or of the list of members from a line on.
#[derive(Clone, Copy)]
pub struct Part {
    /// The number of its tree; 0 where nothing is known.
    pub number: u32,
    /// How deep the type is, or the deepest one of the list.
    pub depth: u32,
}

/// What is known of the lines of a type table.
#[derive(Drop)]
pub struct Found {
    /// The labels of the lines, rising.
    pub labels: Numbers,
    /// The number of the list with no member.
    pub end: u32,
    /// For each line the type, or the list from there on.
    pub parts: Seq<Part>,
}

/// Nothing is known.
pub fn nothing() -> Part
    ensures { result ≡ spec.nothing }
{
    Part {
        number: 0,
        depth: 0,
    }
}

/// What is known of the line at a place.
pub fn part_at(parts: &[Part], place: usize) -> Part
    ensures { result ≡ spec.part_at parts.now place }
{
    match parts.get(place) {
        Some(part) => *part,
        None => nothing(),
    }
}

/// The place of a label.
pub fn place_of(labels: &[u32], label: u32) -> Option<usize>
    requires { IsStrictlyIncreasing labels.now }
    ensures { result ≡ spec.place_of labels.now label }
{
    match labels.binary_search(&label) {
        Ok(place) => Some(place),
        Err(_) => None,
    }
}

fn is_type(kind: Option<TypeKind>) -> bool
    ensures { result ≡ spec.is_type kind }
{
    match kind {
        Some(TypeKind::Field) => false,
        Some(TypeKind::Tag) => false,
        Some(TypeKind::Tuple) => false,
        _ => true,
    }
}

/// Whether a line is one of such lists, or of a type where no list is wanted.
fn is_on(wanted: Option<Line>, kind: Option<TypeKind>) -> bool
    ensures { result ≡ spec.is_on wanted kind }
{
    match wanted {
        Some(line) => is_line(line, kind),
        None => is_type(kind),
    }
}

fn part_in(types: &[TypeEntry], parts: &[Part], wanted: Option<Line>, place: usize) -> Part
    ensures { result ≡ spec.part_in wanted types.now parts.now place }
{
    let Some(entry) = item_at(types, place) else {
        return nothing();
    };
    if is_on(wanted, kind_of(entry.code)) {
        part_at(parts, place)
    } else {
        nothing()
    }
}

/// What is known of the line of a label, where it is one of such lists, or of a type where no list is
/// wanted.
fn part_of(types: &[TypeEntry], found: &Found, wanted: Option<Line>, label: u32) -> Part
    requires rising { IsStrictlyIncreasing (map (λ e. e.label) types.now) }
    requires labels { found.now.labels ≡ labels_in types.now }
    ensures { result ≡ spec.part_of wanted types.now found.now.parts label }
{
    match place_of(found.labels.as_slice(), label) {
        Some(place) => part_in(types, found.parts.as_slice(), wanted, place),
        None => nothing(),
    }
}

/// What is known of the type of a label.
pub fn type_part(types: &[TypeEntry], found: &Found, label: u32) -> Part
    requires rising { IsStrictlyIncreasing (map (λ e. e.label) types.now) }
    requires labels { found.now.labels ≡ labels_in types.now }
    ensures { result ≡ spec.part_of None types.now found.now.parts label }
{
    part_of(types, found, None, label)
}

/// What is known of the list from a label on. No list has more members than there are lines, which is
/// tested here.
pub fn list_part(
    shapes: &Shapes,
    types: &[TypeEntry],
    found: &Found,
    line: Line,
    label: u32,
) -> Part
    requires rising { IsStrictlyIncreasing (map (λ e. e.label) types.now) }
    requires labels { found.now.labels ≡ labels_in types.now }
    ensures { result ≡ spec.list_of (trees_in shapes.now) line types.now found.now label }
{
    if label == 0 {
        return Part {
            number: found.end,
            depth: 0,
        };
    }
    let part = part_of(types, found, Some(line), label);
    if shapes.members(part.number) as usize <= types.len() {
        part
    } else {
        nothing()
    }
}
