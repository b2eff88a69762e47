//! How many steps graphs take.
ghost use Rattle.std.specs.Prelude.{◌≡◌, ℕ, ◌+◌, length, IfOk};
ghost use Rattle.plan_data.specs.declared.plan.PlanData.{PlanData};
ghost use Rattle.plan_data.specs.Parts.{arms_steps, graph_nodes, graph_refolded, loop_steps, nodes_steps, size_in, table_of, work_steps};
ghost use Rattle.plan_tables.specs.Above.{ArePartsAbove, tabled};

use flow_value::{NoMemory, Numbers, Seq};
use plan_data::{LoopParts, PlanGraph, PlanNode, Work, number_at, refolded_in};
use std::alloc::Global;

/// The sum; more steps or cells than 32 bits count are want of memory.
pub fn plus(a: u32, b: u32) -> Result<u32, NoMemory>
    ensures { IfOk result (λ n. n ≡ a + b) }
{
    match a.checked_add(b) {
        Some(sum) => Ok(sum),
        None => Err(NoMemory),
    }
}

/// So many zeros.
pub fn zeros(alloc: Global, count: usize) -> Result<Numbers, NoMemory>
    ensures { IfOk result (λ ns. length ns ≡ count) }
{
    let mut list = Seq::with_room(alloc, count)?;
    for place in 0..count {
        list.add(0)?;
    }
    Ok(list)
}

/// How many steps these graphs take, with one more behind each.
pub fn arms_total(graphs: &[PlanGraph], sizes: &[u32], arms: &[u32]) -> Result<u32, NoMemory>
    ensures { IfOk result (λ n. n ≡ arms_steps (tabled graphs.now sizes.now) arms.now) }
{
    let _these = graphs;
    let mut steps = 0;
    for arm in arms {
        steps = plus(steps, plus(number_at(sizes, *arm), 1)?)?;
    }
    Ok(steps)
}

fn loop_total(graphs: &[PlanGraph], sizes: &[u32], parts: LoopParts) -> Result<u32, NoMemory>
    ensures { IfOk result (λ n. n ≡ loop_steps (tabled graphs.now sizes.now) parts) }
{
    let first = plus(number_at(sizes, parts.init), 1)?;
    let turn = plus(number_at(sizes, parts.body), 1)?;
    let test = plus(number_at(sizes, parts.test), 1)?;
    let last = plus(number_at(sizes, refolded_in(graphs, parts.returns)), 1)?;
    plus(first, plus(turn, plus(test, last)?)?)
}

fn for_all_total(
    graphs: &[PlanGraph],
    sizes: &[u32],
    generator: u32,
    body: u32,
    returns: u32,
) -> Result<u32, NoMemory>
    ensures { IfOk result (λ n. n ≡ size_in (tabled graphs.now sizes.now) generator + size_in (tabled graphs.now sizes.now) body + size_in (tabled graphs.now sizes.now) (graph_refolded (tabled graphs.now sizes.now) returns)) }
{
    let first = plus(number_at(sizes, generator), number_at(sizes, body))?;
    plus(first, number_at(sizes, refolded_in(graphs, returns)))
}

fn work_total(graphs: &[PlanGraph], sizes: &[u32], work: &Work) -> Result<u32, NoMemory>
    ensures { IfOk result (λ n. n ≡ work_steps (tabled graphs.now sizes.now) work.now) }
{
    match work {
        Work::Plain(..) | Work::Call(_) => Ok(1),
        Work::Select(selector, arms) => {
            let others = arms_total(graphs, sizes, arms.as_slice())?;
            plus(plus(number_at(sizes, *selector), 3)?, others)
        }
        Work::TagCase(arms) => plus(arms_total(graphs, sizes, arms.as_slice())?, 3),
        Work::LoopA(parts) => plus(loop_total(graphs, sizes, *parts)?, 3),
        Work::LoopB(parts) => plus(loop_total(graphs, sizes, *parts)?, 2),
        Work::ForAll(generator, body, returns, _) => {
            plus(
                for_all_total(graphs, sizes, *generator, *body, *returns)?,
                6,
            )
        }
    }
}

fn nodes_total(graphs: &[PlanGraph], sizes: &[u32], nodes: &[PlanNode]) -> Result<u32, NoMemory>
    ensures { IfOk result (λ n. n ≡ nodes_steps (tabled graphs.now sizes.now) nodes.now) }
{
    let mut steps = 0;
    for node in nodes {
        steps = plus(steps, work_total(graphs, sizes, &node.work)?)?;
    }
    Ok(steps)
}

/// How many steps each graph takes, where the graphs inside a graph have greater numbers.
pub fn sizes_of(alloc: Global, graphs: &[PlanGraph]) -> Result<Numbers, NoMemory>
    requires { ArePartsAbove graphs.now }
    ensures { IfOk result (λ ns. (D : PlanData) → D.graphs ≡ graphs.now → D.sizes ≡ ns → (g : ℕ) → size_in D g ≡ nodes_steps D (graph_nodes D g)) }
{
    let mut sizes = zeros(alloc, graphs.len())?;
    let mut graph = graphs.len();
    while graph > 0 {
        graph -= 1;
        let steps = nodes_total(graphs, sizes.as_slice(), graphs[graph].nodes.as_slice())?;
        sizes.set(graph, steps);
    }
    Ok(sizes)
}
