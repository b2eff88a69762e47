//! Runs of the functions of a unit.
ghost use Rattle.std.specs.Prelude.{◌≡◌, map, MatchResult, IfOk, IfErr};
ghost use Rattle.graph_meaning.specs.Carried.{Value};
ghost use Rattle.run_store.specs.Stored as stored;
ghost use Rattle.run_cells.specs.Held.{held};
ghost use Rattle.unit_code.specs.Codes.{IsCodeOfUnit};
ghost use Rattle.unit_code.specs.Runs.{AreArguments, AreLeft, AreTotalsOf, IsFaultOf};

use crate::code::UnitCode;
use crate::values::{cells_of, values_of};
use flow_value::Items;
use if1_sound::Sound;
use run_cells::Cell;
use run_gate::Gate;
use std::alloc::Global;
use unit_whole::{RunFault, Totalled, number_at, run_function};

/// What a run of a function gives.
#[derive(Drop)]
pub struct Totals {
    /// The results.
    pub results: Items,
    /// The firings.
    pub fires: u64,
    /// The leaves that were copied, or the greatest number.
    pub copies: u64,
    /// The elements that were written, or the greatest number.
    pub writes: u64,
}

/// Runs a function of a unit on these arguments: its results, firings, copies and writes are of
/// record, and the limit is told only where every cost is above it. The gate is called around each item.
pub fn run_unit<G: Gate>(
    alloc: Global,
    unit: &Sound,
    code: &UnitCode,
    function: u32,
    args: Items,
    limit: u64,
    gate: &G,
) -> Result<Totals, RunFault>
    requires made { IsCodeOfUnit unit.now code.now }
    requires count { AreArguments unit.now function args }
    ensures { MatchResult result (λ t. AreTotalsOf unit.now function limit (map Value args) t) (λ e. IsFaultOf unit.now function limit (map Value args) e) }
{
    let _whole = unit.unit();
    let cells = entered(alloc, args)?;
    let entry = number_at(code.entries.as_slice(), function);
    let room = number_at(code.rooms.as_slice(), function);
    let ended = run_function(alloc, &code.code, entry, room, cells, limit, gate)?;
    left(alloc, ended)
}

fn entered(alloc: Global, args: Items) -> Result<Vec<Cell>, RunFault>
    ensures cells { IfOk result (λ cs. map held cs.items ≡ map stored.Owns (map Value args)) }
    ensures refused { IfErr result (λ e. e ≡ RunFault.NoMemory) }
{
    match cells_of(alloc, args) {
        Ok(cells) => Ok(cells),
        Err(_) => Err(RunFault::NoMemory),
    }
}

fn left(alloc: Global, run: Totalled) -> Result<Totals, RunFault>
    ensures { MatchResult result (λ t. AreLeft run t) (λ e. e ≡ RunFault.NoMemory) }
{
    let Totalled {
        results,
        fires,
        copies,
        writes,
    } = run;
    match values_of(alloc, results) {
        Ok(results) => Ok(Totals {
            results,
            fires,
            copies,
            writes,
        }),
        Err(_) => Err(RunFault::NoMemory),
    }
}
