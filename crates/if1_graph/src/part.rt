//! The graphs inside compound nodes.
ghost use Rattle.std.specs.Prelude.{◌≡◌, ◌↔◌, IsTrue};
ghost use Rattle.if1_graph.specs.Parts.{HasParts, loop_part, part_at};

use crate::op::{Compound, Part};

/// Whether a compound node may have so many graphs.
pub fn has_parts(compound: Compound, graphs: usize) -> bool
    ensures { IsTrue result ↔ HasParts compound graphs }
{
    match compound {
        Compound::ForAll => graphs == 3,
        Compound::Select => graphs >= 2,
        Compound::TagCase => graphs >= 1,
        Compound::LoopA | Compound::LoopB => graphs == 4,
    }
}

fn loop_part(place: usize) -> Option<Part>
    ensures { result ≡ loop_part place }
{
    match place {
        0 => Some(Part::Initialization),
        1 => Some(Part::Test),
        2 => Some(Part::Body),
        3 => Some(Part::Returns),
        _ => None,
    }
}

fn forall_part(place: usize) -> Option<Part>
    ensures { result ≡ part_at Compound.ForAll place }
{
    match place {
        0 => Some(Part::Generator),
        1 => Some(Part::Body),
        2 => Some(Part::Returns),
        _ => None,
    }
}

/// What the graph at a place, from 0, is for.
pub fn part_at(compound: Compound, place: usize) -> Option<Part>
    ensures { result ≡ part_at compound place }
{
    match compound {
        Compound::ForAll => forall_part(place),
        Compound::Select if place == 0 => Some(Part::Selector),
        Compound::Select => Some(Part::Alternative),
        Compound::TagCase => Some(Part::Arm),
        Compound::LoopA | Compound::LoopB => loop_part(place),
    }
}
