//! The graphs of a unit in the order of their numbers.
ghost use Rattle.std.specs.Prelude.{◌≡◌, ◌≤◌, ◌++◌, ℕ, suc, map, All, IfOk, OnOk};
ghost use Rattle.if1_graph.specs.Units.{greatest, levels, level_below, most_levels};
ghost use Rattle.if1_order.proofs.Within.{node_levels};
ghost use Rattle.mark_check.specs.Graphs.{graphs_of, graphs_in, graphs_below, unit_graphs, lent};

use flow_value::NoMemory;
use if1_graph::{Graph, Node, Unit1};
use std::alloc::Global;

#[cycle(graphs)]
fn add_graph<'a>(graph: &'a Graph, all: &mut Vec<&'a Graph>) -> Result<(), NoMemory>
    ensures { OnOk
        result
        ((more : ℕ) → levels graph.now ≤ more → lent all.new.items ≡ lent all.old.items ++ graphs_of more graph.now) }
{
    all.push(graph)?;
    add_nodes(graph.nodes.as_slice(), all)?;
    Ok(())
}

#[cycle(graphs)]
fn add_nodes<'a>(nodes: &'a [Node], all: &mut Vec<&'a Graph>) -> Result<(), NoMemory>
    ensures { OnOk
        result
        ((more : ℕ) → greatest (map node_levels nodes.now) ≤ suc more → lent all.new.items ≡ lent all.old.items ++ graphs_below more nodes.now) }
{
    for node in nodes {
        add_parts(node.subs.as_slice(), all)?;
    }
    Ok(())
}

#[cycle(graphs)]
fn add_parts<'a>(graphs: &'a [Graph], all: &mut Vec<&'a Graph>) -> Result<(), NoMemory>
    ensures { OnOk
        result
        ((more : ℕ) → level_below (map levels graphs.now) ≤ suc more → lent all.new.items ≡ lent all.old.items ++ graphs_in more graphs.now) }
{
    for graph in graphs {
        add_graph(graph, all)?;
    }
    Ok(())
}

/// The graphs of a unit in the order of their numbers. Calls itself once for each level of compound
/// nodes.
pub fn all_graphs(alloc: Global, unit: &Unit1) -> Result<Vec<&Graph>, NoMemory>
    requires { All (λ g. levels g ≤ most_levels) unit.now.graphs }
    ensures { IfOk result (λ gs. lent gs.items ≡ unit_graphs unit.now) }
{
    let mut all = Vec::new(alloc);
    add_parts(unit.graphs.as_slice(), &mut all)?;
    Ok(all)
}
