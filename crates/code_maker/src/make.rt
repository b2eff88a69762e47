//! The code of functions.
ghost use Rattle.std.specs.Prelude.{◌≡◌, ℕ, suc, ◌+◌, ◌<◌, ◌≤◌, [], length, IfOk, OnOk};
ghost use Rattle.run_code.specs.Made.{Plan};
ghost use Rattle.plan_data.specs.Settings.{Shares};
ghost use Rattle.plan_data.specs.Parts.{IsFormed, arms_steps, size_in};
ghost use Rattle.plan_data.specs.Stands.{Stands};
ghost use Rattle.code_maker.specs.Makes.{FunctionMade, FunctionsMade};
ghost use Rattle.code_maker.specs.Makes.{AreKnit, AreTold, IsCodeOf};

use crate::draft::Draft;
use crate::emit::emit_graph;
use crate::seats::with_cells;
use crate::steps::add_return;
use flow_value::{NoMemory, Seq};
use plan_data::{PlanData, number_at, results_in};
use std::alloc::Global;
use step_code::Code;

/// Makes a function from a place on.
fn emit_function(
    alloc: Global,
    plan: &PlanData,
    levels: u32,
    function: u32,
    place: u32,
    draft: &mut Draft,
) -> Result<(), NoMemory>
    requires formed { IsFormed plan.now }
    requires steps { place + size_in plan.now function ≤ u32.MAX }
    ensures { OnOk result (FunctionMade plan.now levels function place draft.old draft.new) }
{
    let params = number_at(plan.params.as_slice(), function);
    let room = params + number_at(plan.extents.as_slice(), function);
    let inputs = with_cells(alloc, &[], 0, params)?;
    let args = inputs.as_slice();
    emit_graph(
        alloc, plan, room, levels, args, function, place, params, draft,
    )?;
    let ports = results_in(plan.graphs.as_slice(), function);
    add_return(draft, plan, args, params, ports)
}

/// Makes functions, one behind another.
fn draft_of(
    alloc: Global,
    plan: &PlanData,
    levels: u32,
    functions: &[u32],
) -> Result<Draft, NoMemory>
    requires formed { IsFormed plan.now }
    requires steps { arms_steps plan.now functions.now ≤ u32.MAX }
    ensures { IfOk result (λ d. FunctionsMade plan.now levels functions.now d) }
{
    let mut draft = Draft {
        steps: Seq::new(alloc),
        operands: Seq::new(alloc),
        targets: Seq::new(alloc),
        collects: Seq::new(alloc),
    };
    let mut place = 0;
    for function in functions {
        emit_function(alloc, plan, levels, *function, place, &mut draft)?;
        place += number_at(plan.sizes.as_slice(), *function) + 1;
    }
    Ok(draft)
}

/// The code of these functions, one behind another, where graphs are followed down to so many
/// levels: of each plan, with its shares, that stands in the data, each step is that of its line, and
/// handles what it reads as its setting says; a step that fires a node writes and copies what the data
/// tells of it, and what a step names is there.
pub fn code_of(
    alloc: Global,
    plan: PlanData,
    levels: u32,
    functions: &[u32],
) -> Result<Code, NoMemory>
    requires formed { IsFormed plan }
    requires steps { arms_steps plan functions.now ≤ u32.MAX }
    ensures made { IfOk result (λ code. (P : Plan) (S : Shares) → Stands plan P S → IsCodeOf P S levels functions.now code) }
    ensures told { IfOk result (λ code. (P : Plan) (S : Shares) → Stands plan P S → AreTold plan P S levels functions.now code) }
    ensures knit { IfOk result (λ code. (P : Plan) (S : Shares) → Stands plan P S → 0 < length plan.literals → AreKnit plan P levels functions.now code) }
{
    let draft = draft_of(alloc, &plan, levels, functions)?;
    let Draft {
        steps,
        operands,
        targets,
        collects,
    } = draft;
    let PlanData {
        literals,
        marks,
        ..
    } = plan;
    Ok(Code {
        steps,
        operands,
        targets,
        collects,
        marks,
        literals,
        routes: Seq::new(alloc),
        hops: Seq::new(alloc),
    })
}
