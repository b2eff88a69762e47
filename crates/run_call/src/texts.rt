//! The unit of an IF1 text, for a run.
ghost use Rattle.std.specs.Prelude.{◌≡◌, ◌<◌, ◌^◌, ℕ, List, length, IfOk, IfErr};
ghost use Rattle.if1_graph.specs.Reads.{ReadsIf1};
ghost use Rattle.if1_graph.specs.Ready.{IsReady};
ghost use Rattle.if1_marks.specs.Sound.{IsSound};
ghost use Rattle.if1_call.specs.Calls.{IsRefusedFor};
ghost use Rattle.run_call.specs.Texts.{IsUnitOf, with_marks};

use if1_graph::If1Fault;
use if1_read::read_if1;
use if1_sound::Sound;
use if1_valid::{Ready, valid};
use mark_check::check_marks;
use mark_units::mark;
use std::alloc::Global;
use unit_entry::has_marks;

/// A unit with its own marks, if they are sound, or, where it has none, with those that are made.
fn marked(alloc: Global, unit: Ready) -> Result<Sound, If1Fault>
    ensures unit { IfOk result (λ s. (s ≡ with_marks unit) × IsSound s) }
    ensures refused { IfErr result (λ f. (text : List ℕ) → ReadsIf1 text unit → IsReady unit → IsRefusedFor text f) }
{
    if has_marks(unit.unit()) {
        let sound = check_marks(alloc, unit)?;
        Ok(sound)
    } else {
        let made = mark(alloc, unit)?;
        Ok(made.sound)
    }
}

/// The unit that an IF1 text gives, for a run: with its own marks, where an edge takes or a node has an ordering
/// list, and else with those that are made. Else the first fault of the text, of its unit or of its marks (IF1
/// manual M-170).
pub fn unit_of_text(alloc: Global, text: &[u8]) -> Result<Sound, If1Fault>
    requires { length text.now < 2 ^ 32 }
    ensures unit { IfOk result (IsUnitOf text.now) }
    ensures refused { IfErr result (IsRefusedFor text.now) }
{
    let unit = read_if1(alloc, text)?;
    let ready = valid(alloc, unit)?;
    marked(alloc, ready)
}
