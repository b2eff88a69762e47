//! The making of code.
ghost use Rattle.std.specs.Prelude.{◌≡◌, map, IfOk};
ghost use Rattle.if1_graph.specs.declared.graph.Graph.TheViews.{out-Graph};
ghost use Rattle.unit_code.specs.Codes.{IsCodeOfUnit};

use crate::code::UnitCode;
use crate::rooms::{count_of, rooms_of};
use flow_value::{NoMemory, Numbers, Seq};
use if1_graph::Graph;
use if1_sound::Sound;
use std::alloc::Global;
use unit_counts::{code_of_told_data_counts_copies, code_of_told_data_counts_writes};
use unit_data::data_of;
use unit_whole::{code_of, code_of_units_can_be_entered, quicken};

fn numbers_of(alloc: Global, graphs: &[Graph]) -> Result<Numbers, NoMemory>
    ensures { IfOk result (λ ns. ns ≡ map (λ g. (out-Graph g).number) graphs.now) }
{
    let mut numbers = Seq::with_room(alloc, graphs.len())?;
    for graph in graphs {
        numbers.add(graph.number)?;
    }
    Ok(numbers)
}

/// The code of a unit, for runs of its functions. More steps or cells than 32 bits count are want of
/// memory.
pub fn unit_code(alloc: Global, unit: &Sound) -> Result<UnitCode, NoMemory>
    ensures { IfOk result (IsCodeOfUnit unit.now) }
{
    code_of_told_data_counts_copies();
    code_of_told_data_counts_writes();
    code_of_units_can_be_entered();
    let data = data_of(alloc, unit)?;
    let functions = numbers_of(alloc, unit.unit().graphs.as_slice())?;
    let rooms = rooms_of(alloc, &data)?;
    let entries = Numbers::from_slice(alloc, data.entries.as_slice())?;
    let levels = count_of(data.graphs.len())?;
    let laid = code_of(alloc, data, levels, functions.as_slice())?;
    let code = quicken(alloc, laid)?;
    Ok(UnitCode {
        code,
        entries,
        rooms,
    })
}
