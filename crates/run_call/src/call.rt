//! Runs of the entry of a unit on words.
ghost use Rattle.std.specs.Prelude.{◌≡◌, IfOk, IfErr, None, Some, map};
ghost use Rattle.graph_meaning.specs.Carried.{Value};
ghost use Rattle.unit_code.specs.Codes.{IsCodeOfUnit};
ghost use Rattle.unit_entry.specs.Entries.{entry_of, first_lacking};
ghost use Rattle.unit_code.specs.Runs.{AreArguments, AreTotalsOf};
ghost use Rattle.run_call.specs.Calls.{Gives, IsCall, IsRefused, IsStopped};

use flow_value::Items;
use if1_arguments::{UnitTypes, arguments_of};
use if1_sound::Sound;
use if1_valid::Ready;
use mean_call::{ArgumentFault, Refusal, values_of_words};
use run_gate::Gate;
use run_words::RunSet;
use std::alloc::Global;
use unit_code::{RunFault, Totals, UnitCode, run_unit, unit_code};
use unit_entry::{entry, first_lacking};

/// A unit, and its entry with the values of its arguments.
#[derive(Drop)]
struct Call {
    unit: Sound,
    function: u32,
    args: Items,
}

/// The words as values of the arguments of the entry of a unit.
fn arguments(alloc: Global, unit: &Ready, set: &RunSet, function: u32) -> Result<Items, Refusal>
    requires entry { entry_of unit.now set.now.entry ≡ Some function }
    requires linked { first_lacking unit.now ≡ None }
    ensures call { IfOk result (IsCall unit.now set.now function) }
    ensures refused { IfErr result (IsRefused unit.now set.now) }
{
    let sorts = unit.sorts();
    let numbers = arguments_of(alloc, unit.unit(), sorts, function)?;
    let types = UnitTypes { sorts };
    values_of_words(alloc, set.values.as_slice(), &types, numbers.as_slice())
}

/// The entry of a unit, with the words as values of its arguments.
fn call_of(alloc: Global, unit: Sound, set: &RunSet) -> Result<Call, Refusal>
    ensures same { IfOk result (λ c. c.unit ≡ unit) }
    ensures call { IfOk result (λ c. IsCall unit set.now c.function c.args) }
    ensures refused { IfErr result (IsRefused unit set.now) }
{
    if let Some(name) = first_lacking(alloc, unit.unit())? {
        return Err(Refusal::Unlinked(name));
    }
    let Some(function) = entry(unit.unit(), set.entry.as_slice()) else {
        return Err(Refusal::Argument(ArgumentFault::Entry));
    };
    let ready = unit.into_ready();
    let args = arguments(alloc, &ready, set, function)?;
    Ok(Call {
        unit: Sound::of(ready),
        function,
        args,
    })
}

/// Runs a function of a unit by its code.
fn run_code<G: Gate>(
    alloc: Global,
    unit: &Sound,
    code: &UnitCode,
    function: u32,
    args: Items,
    limit: u64,
    gate: &G,
) -> Result<Totals, Refusal>
    requires code { IsCodeOfUnit unit.now code.now }
    requires count { AreArguments unit.now function args }
    ensures run { IfOk result (AreTotalsOf unit.now function limit (map Value args)) }
    ensures stopped { IfErr result (IsStopped unit.now function args limit) }
{
    match run_unit(alloc, unit, code, function, args, limit, gate) {
        Ok(totals) => Ok(totals),
        Err(RunFault::TurnLimit) => Err(Refusal::TurnLimit),
        Err(RunFault::NoMemory) => Err(Refusal::NoMemory),
    }
}

/// Runs the entry of a unit on the words, within the limit of firings, by code that is made of the unit.
/// The gate is called around each item.
pub fn run<G: Gate>(alloc: Global, unit: Sound, set: &RunSet, gate: &G) -> Result<Totals, Refusal>
    ensures given { IfOk result (Gives unit set.now) }
    ensures refused { IfErr result (IsRefused unit set.now) }
{
    let Call {
        unit,
        function,
        args,
    } = call_of(alloc, unit, set)?;
    let code = unit_code(alloc, &unit)?;
    run_code(alloc, &unit, &code, function, args, set.limit, gate)
}
