//! Ranges of iterations.
ghost use Rattle.std.specs.Prelude.{◌≡◌, ◌↔◌, ◌+◌, pos, IsTrue, MatchResult};
ghost use Rattle.flow_value.specs.declared.value.Val.TheVariants as val;
ghost use Rattle.run_cells.specs.Held.{held, heap_of};
ghost use Rattle.run_code.specs.Machine.{counter};
ghost use Rattle.run_store.specs.Stored as stored;
ghost use Rattle.sequential_run.specs.Fusing.{AreFusions};
ghost use Rattle.sequential_run.specs.Kinds.{IsEach};
ghost use Rattle.sequential_run.specs.Runs.{IsFault};
ghost use Rattle.sequential_run.specs.Whole.{CanStep, step_at};
ghost use Rattle.sequential_range.specs.Ranges.{IsBegun, HasCome, Stands, count_of};

use flow_value::Val;
use run_cells::{Cell, Seen, owned_by};
use run_gate::OpenGate;
use sequential::Machine;
use sequential_run::{Fusion, Open, RunFault, Went, advance, step_here};
use std::alloc::Global;
use step_code::{Code, Step};

/// Runs the iterations of a ForAll from the one on before which the machine stands, at an Each in a
/// block that stands alone, up to this one, before which it stands then: its collections have what
/// they put there, and its firings and copies are theirs. Or one more firing would be beyond the
/// limit. Gives what was written, or the greatest number. No gate is called.
pub fn run_range(
    machine: &mut Machine,
    alloc: Global,
    code: &Code,
    fusions: &[Fusion],
    last: u64,
    limit: u64,
) -> Result<u64, RunFault>
    requires can { CanStep code.now machine.old }
    requires fusions { AreFusions code.now fusions.now }
    requires each { IsEach (step_at code.now machine.old.pc) }
    requires begun { (s : stored.Stored) × IsBegun code.now limit machine.old.pc machine.old.base last machine.old s }
    ensures { (s : stored.Stored) → IsBegun code.now limit machine.old.pc machine.old.base last machine.old s → MatchResult result (λ w. HasCome code.now limit machine.old.pc machine.old.base last s machine.new w) (λ e. IsFault code.now limit s e) }
{
    let each = machine.pc;
    let base = machine.base;
    let counted = counts_in(step_here(code, each));
    let mut writes = 0;
    let mut open = Open::Nothing;
    'turns: loop {
        if stands(machine, each, base, counted, last) {
            return Ok(writes);
        }
        match advance(
            machine,
            alloc,
            code,
            fusions,
            limit,
            &OpenGate,
            &mut open,
            &mut writes,
        ) {
            Went::Goes => {}
            Went::Writes => {}
            Went::Over => return Err(RunFault::TurnLimit),
            Went::Refused => return Err(RunFault::NoMemory),
            Went::Ends => unreachable!(),
            Went::EndsWriting => unreachable!(),
        }
    }
}

/// The cell in which an Each counts the iterations that were begun.
fn counts_in(this: &Step) -> u32
    requires { IsEach this.now }
    ensures { result ≡ count_of this.now }
{
    match this {
        Step::Each { count, .. } => *count,
        _ => unreachable!(),
    }
}

/// Whether the machine stands at a place, in this block and with no open call, where a cell of it
/// counts so many.
fn stands(machine: &Machine, place: usize, base: usize, counted: u32, many: u64) -> bool
    ensures { IsTrue result ↔ Stands machine.now place base counted many }
{
    machine.pc == place
        && machine.base == base
        && machine.calls.is_empty()
        && counts(machine.cells.as_slice(), base, counted, many)
}

/// Whether a cell of a block counts so many.
fn counts(cells: &[Cell], base: usize, place: u32, many: u64) -> bool
    ensures { IsTrue result ↔ (heap_of cells.now (base + place) ≡ stored.Owns (counter many)) }
{
    let place = place as usize;
    if base < cells.len() && place < cells.len() - base {
        is_count(&cells[base + place], many)
    } else {
        false
    }
}

/// Whether a cell has this count.
fn is_count(cell: &Cell, many: u64) -> bool
    ensures { IsTrue result ↔ (held cell.now ≡ stored.Owns (counter many)) }
{
    match owned_by(cell) {
        Seen::Int(n) => is_number(n, many),
        Seen::Value(v) => is_integer(v, many),
        _ => false,
    }
}

/// Whether a value is this number.
fn is_integer(v: &Val, many: u64) -> bool
    ensures { IsTrue result ↔ (v.now ≡ val.Int (pos many)) }
{
    match v {
        Val::Int(n) => is_number(*n, many),
        _ => false,
    }
}

/// Whether an integer is this number.
fn is_number(n: i64, many: u64) -> bool
    ensures { IsTrue result ↔ (n ≡ pos many) }
{
    match u64::try_from(n) {
        Ok(n) => n == many,
        Err(_) => false,
    }
}
