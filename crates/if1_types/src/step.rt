//! The number of a line, by what is known of its parts.
ghost use Rattle.std.specs.Prelude.{◌≡◌, ◌≤◌, ◌<◌, ◌^◌, ◌⊎◌, None, suc, length, map, IfOk};
ghost use Rattle.std.specs.List.Sorted.{IsStrictlyIncreasing};
ghost use Rattle.if1_types.specs.Trees.{node, leaf, kind_number, scalar_tree};
ghost use Rattle.if1_types.specs.Shapes.{trees_in, IsLater};
ghost use Rattle.if1_types.specs.Finds.{part_of, list_of, AreRight};
ghost use Rattle.if1_graph.specs.Kinds.{kind_at};
ghost use Rattle.if1_types.specs.Steps.{Has, IsScalar, IsOver, IsMember, IsStep};

use crate::found::{Found, Part, list_part, nothing, type_part};
use crate::kind::Kind;
use crate::lines::Line;
use crate::shapes::Shapes;
use flow_value::NoMemory;
use if1_graph::{Basic, TypeEntry, TypeKind, basic_of, kind_of};

/// No type is deeper.
const DEEPEST: u32 = 64;

fn alone(shapes: &mut Shapes, kind: Kind) -> Result<Part, NoMemory>
    requires room { suc (length (trees_in shapes.old)) < 2 ^ 32 }
    ensures part { IfOk result (λ y. Has (trees_in shapes.new) y (node (kind_number kind) leaf leaf) 1) }
    ensures later { IsLater (trees_in shapes.old) (trees_in shapes.new) }
    ensures grows { length (trees_in shapes.new) ≤ suc (length (trees_in shapes.old)) }
{
    let number = shapes.number(kind, 0, 0)?;
    Ok(Part { number, depth: 1 })
}

fn scalar(shapes: &mut Shapes, basic: Option<Basic>) -> Result<Part, NoMemory>
    requires room { suc (length (trees_in shapes.old)) < 2 ^ 32 }
    ensures part { IfOk result (IsScalar shapes.old shapes.new (scalar_tree basic)) }
    ensures later { IsLater (trees_in shapes.old) (trees_in shapes.new) }
    ensures grows { length (trees_in shapes.new) ≤ suc (length (trees_in shapes.old)) }
{
    match basic {
        Some(Basic::Boolean) => alone(shapes, Kind::Boolean),
        Some(Basic::Character) => alone(shapes, Kind::Character),
        Some(Basic::Integer) => alone(shapes, Kind::Integer),
        Some(Basic::Null) => alone(shapes, Kind::Null),
        _ => Ok(nothing()),
    }
}

/// A type over one part, where it is not too deep.
fn over(shapes: &mut Shapes, kind: Kind, part: Part) -> Result<Part, NoMemory>
    requires within { part.number ≤ length (trees_in shapes.old) }
    requires room { suc (length (trees_in shapes.old)) < 2 ^ 32 }
    ensures part { IfOk result (IsOver shapes.old shapes.new (kind_number kind) part) }
    ensures later { IsLater (trees_in shapes.old) (trees_in shapes.new) }
    ensures grows { length (trees_in shapes.new) ≤ suc (length (trees_in shapes.old)) }
{
    if part.number == 0 {
        return Ok(nothing());
    }
    if part.depth >= DEEPEST {
        return Ok(nothing());
    }
    let number = shapes.number(kind, part.number, 0)?;
    Ok(Part {
        number,
        depth: part.depth + 1,
    })
}

fn deeper(a: u32, b: u32) -> u32
    ensures first { a ≤ result }
    ensures second { b ≤ result }
    ensures one { (result ≡ a) ⊎ (result ≡ b) }
{
    if a < b { b } else { a }
}

/// A member before the rest of a list.
fn member(shapes: &mut Shapes, ty: Part, rest: Part) -> Result<Part, NoMemory>
    requires first { ty.number ≤ length (trees_in shapes.old) }
    requires second { rest.number ≤ length (trees_in shapes.old) }
    requires room { suc (length (trees_in shapes.old)) < 2 ^ 32 }
    ensures part { IfOk result (IsMember shapes.old shapes.new ty rest) }
    ensures later { IsLater (trees_in shapes.old) (trees_in shapes.new) }
    ensures grows { length (trees_in shapes.new) ≤ suc (length (trees_in shapes.old)) }
{
    if ty.number == 0 {
        return Ok(nothing());
    }
    if rest.number == 0 {
        return Ok(nothing());
    }
    let number = shapes.number(Kind::Member, ty.number, rest.number)?;
    Ok(Part {
        number,
        depth: deeper(ty.depth, rest.depth),
    })
}

fn over_type(
    shapes: &mut Shapes,
    types: &[TypeEntry],
    found: &Found,
    kind: Kind,
    label: u32,
) -> Result<Part, NoMemory>
    requires rising { IsStrictlyIncreasing (map (λ e. e.label) types.now) }
    requires right { AreRight (trees_in shapes.old) types.now found.now }
    requires room { suc (length (trees_in shapes.old)) < 2 ^ 32 }
    ensures part { IfOk result (IsOver shapes.old shapes.new (kind_number kind) (part_of None types.now found.now.parts label)) }
    ensures later { IsLater (trees_in shapes.old) (trees_in shapes.new) }
    ensures grows { length (trees_in shapes.new) ≤ suc (length (trees_in shapes.old)) }
{
    let part = type_part(types, found, label);
    over(shapes, kind, part)
}

fn over_list(
    shapes: &mut Shapes,
    types: &[TypeEntry],
    found: &Found,
    kind: Kind,
    line: Line,
    label: u32,
) -> Result<Part, NoMemory>
    requires rising { IsStrictlyIncreasing (map (λ e. e.label) types.now) }
    requires right { AreRight (trees_in shapes.old) types.now found.now }
    requires room { suc (length (trees_in shapes.old)) < 2 ^ 32 }
    ensures part { IfOk result (IsOver shapes.old shapes.new (kind_number kind) (list_of (trees_in shapes.old) line types.now found.now label)) }
    ensures later { IsLater (trees_in shapes.old) (trees_in shapes.new) }
    ensures grows { length (trees_in shapes.new) ≤ suc (length (trees_in shapes.old)) }
{
    let part = list_part(shapes, types, found, line, label);
    over(shapes, kind, part)
}

fn list_from(
    shapes: &mut Shapes,
    types: &[TypeEntry],
    found: &Found,
    line: Line,
    entry: &TypeEntry,
) -> Result<Part, NoMemory>
    requires rising { IsStrictlyIncreasing (map (λ e. e.label) types.now) }
    requires right { AreRight (trees_in shapes.old) types.now found.now }
    requires room { suc (length (trees_in shapes.old)) < 2 ^ 32 }
    ensures part { IfOk result (IsMember shapes.old shapes.new (part_of None types.now found.now.parts entry.now.first) (list_of (trees_in shapes.old) line types.now found.now entry.now.second)) }
    ensures later { IsLater (trees_in shapes.old) (trees_in shapes.new) }
    ensures grows { length (trees_in shapes.new) ≤ suc (length (trees_in shapes.old)) }
{
    let ty = type_part(types, found, entry.first);
    let rest = list_part(shapes, types, found, line, entry.second);
    member(shapes, ty, rest)
}

/// What is known of a line, by what is known of its parts.
pub fn part_by(
    shapes: &mut Shapes,
    types: &[TypeEntry],
    found: &Found,
    entry: &TypeEntry,
) -> Result<Part, NoMemory>
    requires rising { IsStrictlyIncreasing (map (λ e. e.label) types.now) }
    requires right { AreRight (trees_in shapes.old) types.now found.now }
    requires room { suc (length (trees_in shapes.old)) < 2 ^ 32 }
    ensures part { IfOk result (IsStep shapes.old shapes.new types.now found.now entry.now (kind_at entry.now.code)) }
    ensures later { IsLater (trees_in shapes.old) (trees_in shapes.new) }
    ensures grows { length (trees_in shapes.new) ≤ suc (length (trees_in shapes.old)) }
{
    match kind_of(entry.code) {
        Some(TypeKind::Basic) => scalar(shapes, basic_of(entry.first)),
        Some(TypeKind::Array) => over_type(shapes, types, found, Kind::Array, entry.first),
        Some(TypeKind::Stream) => over_type(shapes, types, found, Kind::Stream, entry.first),
        Some(TypeKind::Record) => over_list(
            shapes,
            types,
            found,
            Kind::Record,
            Line::Field,
            entry.first,
        ),
        Some(TypeKind::Union) => over_list(
            shapes,
            types,
            found,
            Kind::Union,
            Line::Tag,
            entry.first,
        ),
        Some(TypeKind::Field) => list_from(shapes, types, found, Line::Field, entry),
        Some(TypeKind::Tag) => list_from(shapes, types, found, Line::Tag, entry),
        Some(TypeKind::Tuple) => list_from(shapes, types, found, Line::Tuple, entry),
        _ => Ok(nothing()),
    }
}
