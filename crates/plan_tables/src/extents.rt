//! How many cells graphs take.
ghost use Rattle.std.specs.Prelude.{◌≡◌, ℕ, ◌+◌, max, map, length, IfOk};
ghost use Rattle.plan_data.specs.declared.plan.PlanData.{PlanData};
ghost use Rattle.plan_data.specs.Parts.{count_true, extent_in, for_all_cells, graph_nodes, greatest_of, loop_cells, nodes_cells, own_copies, picks_of, work_cells};
ghost use Rattle.plan_tables.specs.Above.{ArePartsAbove, roomed};

use crate::sizes::{plus, zeros};
use flow_value::{NoMemory, Numbers};
use gapped::Gapped;
use plan_data::{
    Handled, LoopParts, PlanGraph, PlanNode, Port, Work, collects_in, number_at, refolded_in,
    results_in,
};
use std::alloc::Global;

fn greater(a: u32, b: u32) -> u32
    ensures { result ≡ max a b }
{
    a.max(b)
}

fn count_of(many: usize) -> Result<u32, NoMemory>
    ensures { IfOk result (λ n. n ≡ many) }
{
    match u32::try_from(many) {
        Ok(count) => Ok(count),
        Err(_) => Err(NoMemory),
    }
}

fn arms_most(graphs: &[PlanGraph], extents: &[u32], arms: &[u32]) -> u32
    ensures { result ≡ greatest_of (roomed graphs.now extents.now) arms.now }
{
    let _these = graphs;
    let mut most = 0;
    for arm in arms {
        most = greater(most, number_at(extents, *arm));
    }
    most
}

fn loop_most(graphs: &[PlanGraph], extents: &[u32], parts: LoopParts) -> Result<u32, NoMemory>
    ensures { IfOk result (λ n. n ≡ loop_cells (roomed graphs.now extents.now) parts) }
{
    let values = count_of(results_in(graphs, parts.init).len())?;
    let many = count_of(collects_in(graphs, parts.returns).len())?;
    let last = number_at(extents, refolded_in(graphs, parts.returns));
    let turn = greater(number_at(extents, parts.body), last);
    let inner = greater(number_at(extents, parts.test), turn);
    let kept = plus(values, plus(many, inner)?)?;
    Ok(greater(number_at(extents, parts.init), kept))
}

fn for_all_most(
    graphs: &[PlanGraph],
    extents: &[u32],
    generator: u32,
    body: u32,
    returns: u32,
) -> Result<u32, NoMemory>
    ensures { IfOk result (λ n. n ≡ for_all_cells (roomed graphs.now extents.now) generator body returns) }
{
    let lists = count_of(results_in(graphs, generator).len())?;
    let many = count_of(collects_in(graphs, returns).len())?;
    let row = plus(plus(lists, 1)?, number_at(extents, body))?;
    let inner = greater(row, number_at(extents, refolded_in(graphs, returns)));
    let kept = plus(lists, plus(many, inner)?)?;
    Ok(greater(number_at(extents, generator), kept))
}

fn work_most(graphs: &[PlanGraph], extents: &[u32], work: &Work) -> Result<u32, NoMemory>
    ensures { IfOk result (λ n. n ≡ work_cells (roomed graphs.now extents.now) work.now) }
{
    match work {
        Work::Plain(..) | Work::Call(_) => Ok(0),
        Work::Select(selector, arms) => {
            let others = arms_most(graphs, extents, arms.as_slice());
            Ok(greater(number_at(extents, *selector), others))
        }
        Work::TagCase(arms) => plus(arms_most(graphs, extents, arms.as_slice()), 1),
        Work::LoopA(parts) | Work::LoopB(parts) => loop_most(graphs, extents, *parts),
        Work::ForAll(generator, body, returns, _) => {
            for_all_most(graphs, extents, *generator, *body, *returns)
        }
    }
}

fn copied(ports: &[Port]) -> usize
    ensures { result ≡ count_true (map picks_of ports.now) }
{
    let mut many = 0;
    for port in ports {
        if let Handled::Copies = port.handled {
            many += 1;
        }
    }
    many
}

fn all_copied(alloc: Global, ports: &Gapped<Port>) -> Result<usize, NoMemory>
    ensures { IfOk result (λ n. n ≡ count_true (map picks_of ports.now)) }
{
    let listed = ports.listed(alloc)?;
    Ok(copied(listed.as_slice()))
}

fn own_copies(alloc: Global, work: &Work, ports: &Gapped<Port>) -> Result<usize, NoMemory>
    ensures { IfOk result (λ n. n ≡ own_copies work.now ports.now) }
{
    match work {
        Work::Plain(..) | Work::Call(_) => Ok(0),
        Work::Select(..) | Work::TagCase(_) | Work::LoopA(_) | Work::LoopB(_) | Work::ForAll(..) =>
            all_copied(alloc, ports),
    }
}

fn nodes_most(
    alloc: Global,
    graphs: &[PlanGraph],
    extents: &[u32],
    nodes: &[PlanNode],
) -> Result<u32, NoMemory>
    ensures { IfOk result (λ n. n ≡ nodes_cells (roomed graphs.now extents.now) nodes.now) }
{
    let mut most = 0;
    let mut outputs = 0;
    for node in nodes {
        let own = count_of(own_copies(alloc, &node.work, &node.ins)?)?;
        let inner = plus(own, work_most(graphs, extents, &node.work)?)?;
        most = greater(most, plus(outputs, plus(node.width, inner)?)?);
        outputs = plus(outputs, node.width)?;
    }
    Ok(greater(most, outputs))
}

/// How many cells each graph takes, where the graphs inside a graph have greater numbers.
pub fn extents_of(alloc: Global, graphs: &[PlanGraph]) -> Result<Numbers, NoMemory>
    requires { ArePartsAbove graphs.now }
    ensures { IfOk result (λ ns. (D : PlanData) → D.graphs ≡ graphs.now → D.extents ≡ ns → (g : ℕ) → extent_in D g ≡ nodes_cells D (graph_nodes D g)) }
{
    let mut extents = zeros(alloc, graphs.len())?;
    let mut graph = graphs.len();
    while graph > 0 {
        graph -= 1;
        let cells = nodes_most(
            alloc,
            graphs,
            extents.as_slice(),
            graphs[graph].nodes.as_slice(),
        )?;
        extents.set(graph, cells);
    }
    Ok(extents)
}
