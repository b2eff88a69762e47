//! Runs of functions, from their arguments to their totals.
ghost use Rattle.std.specs.Prelude.{◌≡◌, ◌+◌, List, [], map, length, IfOk, IfErr, OnOk, MatchResult};
ghost use Rattle.graph_meaning.specs.Carried.{Carried};
ghost use Rattle.run_store.specs.Stored as stored;
ghost use Rattle.run_cells.specs.Held.{held, heap_of};
ghost use Rattle.sequential.specs.Agrees.{IsAt};
ghost use Rattle.sequential_run.specs.Runs.{IsDecided, LendsBelow, IsFault};
ghost use Rattle.sequential_run.specs.Totals.{entered_at, CanEnter, HasEntered, HasTotals};

use crate::running::{RunFault, run};
use flow_value::NoMemory;
use run_cells::Cell;
use run_gate::Gate;
use sequential::{Calls, Machine};
use std::alloc::Global;
use step_code::Code;

/// What a run of a function gives.
#[derive(Drop)]
pub struct Totalled {
    /// The results.
    pub results: Vec<Cell>,
    /// The firings.
    pub fires: u64,
    /// The leaves that were copied, or the greatest number.
    pub copies: u64,
    /// The elements that were written, or the greatest number.
    pub writes: u64,
}

/// Runs the function whose first step stands at a place, in a block with so many cells, on these
/// arguments. The gate is called around each item.
pub fn run_function<G: Gate>(
    alloc: Global,
    code: &Code,
    entry: u32,
    room: u32,
    args: Vec<Cell>,
    limit: u64,
    gate: &G,
) -> Result<Totalled, RunFault>
    requires can { CanEnter code.now entry room }
    requires begun { (ins : List Carried) × (map held args.items ≡ map stored.Owns ins) × IsDecided code.now limit (entered_at entry ins) × LendsBelow code.now limit (entered_at entry ins) }
    ensures { (ins : List Carried) → map held args.items ≡ map stored.Owns ins → MatchResult result (λ t. HasTotals code.now limit (entered_at entry ins) t) (λ e. IsFault code.now limit (entered_at entry ins) e) }
{
    let mut machine = entered(alloc, code, entry, room, args)?;
    let writes = run(&mut machine, alloc, code, limit, gate)?;
    Ok(totals(machine, writes))
}

fn totals(machine: Machine, writes: u64) -> Totalled
    ensures results { result.results ≡ machine.results }
    ensures fires { result.fires ≡ machine.fires }
    ensures copies { result.copies ≡ machine.copies }
    ensures writes { result.writes ≡ writes }
{
    let Machine {
        results,
        fires,
        copies,
        ..
    } = machine;
    Totalled {
        results,
        fires,
        copies,
        writes,
    }
}

/// A machine at the first step of a function, with its arguments in the first cells.
fn entered(
    alloc: Global,
    code: &Code,
    entry: u32,
    room: u32,
    args: Vec<Cell>,
) -> Result<Machine, RunFault>
    ensures at { IfOk result (λ m. (ins : List Carried) → map held args.items ≡ map stored.Owns ins → IsAt m (entered_at entry ins)) }
    ensures block { IfOk result (λ m. HasEntered entry room m) }
    ensures refused { IfErr result (λ e. e ≡ RunFault.NoMemory) }
{
    match Calls::new(alloc, code) {
        Ok(calls) => widened(alloc, entry, room, args, calls),
        Err(_) => Err(RunFault::NoMemory),
    }
}

/// The same with no open calls.
fn widened(
    alloc: Global,
    entry: u32,
    room: u32,
    args: Vec<Cell>,
    calls: Calls,
) -> Result<Machine, RunFault>
    requires { calls ≡ [] }
    ensures at { IfOk result (λ m. (ins : List Carried) → map held args.items ≡ map stored.Owns ins → IsAt m (entered_at entry ins)) }
    ensures block { IfOk result (λ m. HasEntered entry room m) }
    ensures refused { IfErr result (λ e. e ≡ RunFault.NoMemory) }
{
    let mut cells = args;
    match widen(&mut cells, room) {
        Ok(_) => Ok(standing(alloc, entry, cells, calls)),
        Err(_) => Err(RunFault::NoMemory),
    }
}

fn standing(alloc: Global, entry: u32, cells: Vec<Cell>, calls: Calls) -> Machine
    ensures { result ≡ record { pc = entry; base = 0; cells = cells; calls = calls; fires = 0; copies = 0; results = result.results } }
{
    Machine {
        pc: entry as usize,
        base: 0,
        cells,
        calls,
        fires: 0,
        copies: 0,
        results: Vec::new(alloc),
    }
}

fn widen(cells: &mut Vec<Cell>, many: u32) -> Result<(), NoMemory>
    ensures heap { heap_of cells.new.items ≡ heap_of cells.old.items }
    ensures size { OnOk result (length cells.new.items ≡ length cells.old.items + many) }
{
    for _ in 0..many {
        cells.push(Cell::Empty)?;
    }
    Ok(())
}
