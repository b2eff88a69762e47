//! A unit with the marks that are made.
ghost use Rattle.std.specs.Prelude.{◌≡◌, All, IfOk};
ghost use Rattle.if1_graph.specs.Normal.{IsNormal};
ghost use Rattle.if1_graph.specs.Ready.{IsReady};
ghost use Rattle.if1_graph.specs.Units.{places};
ghost use Rattle.if1_marks.specs.Alike.{AreAlike};
ghost use Rattle.if1_marks.specs.Sound.{IsSound};
ghost use Rattle.marks_made.specs.Units.{is_candidate, marks_of};
ghost use Rattle.marks_made.specs.Laws.{IsMaximal};
ghost use Rattle.mark_units.specs.Notes.{AreNotes};

use crate::begin::Pass;
use crate::note::Notes;
use crate::walk::mark_parts;
use flow_value::{NoMemory, Seq};
use if1_graph::Unit1;
use if1_sound::Sound;
use if1_valid::Ready;
use may_take::candidates;
use std::alloc::Global;

/// A unit with the marks that are made, and a note for each edge that may take.
#[derive(Drop)]
pub struct Marked {
    /// The unit, whose marks are sound.
    pub sound: Sound,
    /// The notes, graph by graph.
    pub notes: Notes,
}

#[derive(Drop)]
struct UnitMarks {
    unit: Unit1,
    notes: Notes,
}

fn marks_in_unit(alloc: Global, unit: Unit1) -> Result<UnitMarks, NoMemory>
    requires ready { IsReady unit }
    requires normal { IsNormal unit }
    ensures unit { IfOk result (λ m. m.unit ≡ marks_of unit) }
    ensures notes { IfOk result (λ m. AreNotes unit (places unit) m.notes) }
{
    let flags = candidates(alloc, &unit)?;
    let Unit1 {
        types,
        imports,
        graphs,
    } = unit;
    let mut pass = Pass {
        at: 0,
        notes: Seq::new(alloc),
    };
    let graphs = mark_parts(alloc, flags.as_slice(), graphs, &mut pass)?;
    Ok(UnitMarks {
        unit: Unit1 {
            types,
            imports,
            graphs,
        },
        notes: pass.notes,
    })
}

/// The unit with the marks that are made, in place of those that it had, and a note for each edge that
/// may take. The marks are sound and maximal, and nothing but marks is changed.
pub fn mark(alloc: Global, ready: Ready) -> Result<Marked, NoMemory>
    ensures unit { IfOk result (λ m. m.sound ≡ marks_of ready) }
    ensures notes { IfOk result (λ m. AreNotes ready (places ready) m.notes) }
    ensures sound { IfOk result (λ m. IsSound m.sound) }
    ensures maximal { IfOk result (λ m. All (λ p. IsMaximal p.graph (is_candidate m.sound p)) (places m.sound)) }
    ensures alike { IfOk result (λ m. AreAlike ready m.sound) }
    ensures ready { IfOk result (λ m. IsReady m.sound) }
    ensures normal { IfOk result (λ m. IsNormal m.sound) }
{
    let (unit, sorts) = ready.into_parts();
    let UnitMarks { unit, notes } = marks_in_unit(alloc, unit)?;
    let sound = Sound::of(Ready::of(unit, sorts));
    Ok(Marked { sound, notes })
}
