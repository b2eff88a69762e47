//! The cells of functions.
ghost use Rattle.std.specs.Prelude.{◌≡◌, ◌+◌, ℕ, IfOk};
ghost use Rattle.unit_whole.specs.Parts.{IsFormed, table_of};

use flow_value::{NoMemory, Numbers, Seq};
use std::alloc::Global;
use unit_whole::{PlanData, number_at};

/// A count of 32 bits; a greater one is want of memory.
pub fn count_of(many: usize) -> Result<u32, NoMemory>
    ensures { IfOk result (λ n. n ≡ many) }
{
    match u32::try_from(many) {
        Ok(count) => Ok(count),
        Err(_) => Err(NoMemory),
    }
}

fn room_of(plan: &PlanData, graph: u32) -> u32
    requires { IsFormed plan.now }
    ensures { result ≡ table_of plan.now.params graph + table_of plan.now.extents graph }
{
    number_at(plan.params.as_slice(), graph) + number_at(plan.extents.as_slice(), graph)
}

/// How many cells the block of each graph has, if it is a function: those of its inputs and of its
/// nodes.
pub fn rooms_of(alloc: Global, plan: &PlanData) -> Result<Numbers, NoMemory>
    requires { IsFormed plan.now }
    ensures { IfOk result (λ rs. (f : ℕ) → table_of rs f ≡ table_of plan.now.params f + table_of plan.now.extents f) }
{
    let many = count_of(plan.params.len().max(plan.extents.len()))?;
    let mut rooms = Seq::with_room(alloc, many as usize)?;
    for graph in 0..many {
        rooms.add(room_of(plan, graph))?;
    }
    Ok(rooms)
}
