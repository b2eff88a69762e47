//! The data of all graphs.
ghost use Rattle.std.specs.Prelude.{IfOk};
ghost use Rattle.unit_data.specs.Data.{IsDataOf};

use crate::facts::facts_of;
use crate::graphs::graphs_of;
use crate::tables::{data_with, functions_of, params_of};
use flow_value::NoMemory;
use if1_sound::Sound;
use output_marks::{all_graphs, firing_orders};
use plan_data::PlanData;
use std::alloc::Global;

/// The data of the plan of a unit, in an order of the nodes of each graph: what code is made of. More
/// steps or cells than 32 bits count are want of memory. Near linear in the unit.
pub fn data_of(alloc: Global, unit: &Sound) -> Result<PlanData, NoMemory>
    ensures { IfOk result (λ d. IsDataOf unit.now d) }
{
    let whole = unit.unit();
    let facts = facts_of(alloc, unit)?;
    let graphs = all_graphs(alloc, whole)?;
    let orders = firing_orders(alloc, unit)?;
    let made = graphs_of(alloc, unit, &facts, graphs.as_slice(), orders)?;
    let functions = functions_of(alloc, whole.graphs.as_slice())?;
    let params = params_of(alloc, facts.inputs.as_slice())?;
    let data = data_with(alloc, made, functions.as_slice(), params)?;
    Ok(data)
}
