//! The shapes of the nodes of a graph.
ghost use Rattle.std.specs.Prelude.{AllPairs};
ghost use Rattle.if1_graph.specs.declared.graph.Graph.TheViews.{out-Graph};
ghost use Rattle.if1_graph.specs.Normal.{Precedes};
ghost use Rattle.node_works.specs.Tables.{IsGraphOf};

use flow_value::{NoMemory, Shape};
use if1_graph::{Graph, Node, simple_of};
use if1_sound::Sound;
use node_works::{UnitTables, output_types, shape_at};
use std::alloc::Global;

fn is_shaped(tables: &UnitTables, output: Option<u32>, graph: &Graph, node: &Node) -> bool
    requires { AllPairs Precedes (out-Graph graph.now).edges }
{
    match simple_of(node.op) {
        Some(row) => !matches!(shape_at(tables, output, graph, node, row), Shape::Plain),
        None => false,
    }
}

fn output_at(types: &[Option<u32>], place: usize) -> Option<u32> {
    match types.get(place) {
        Some(output) => *output,
        None => None,
    }
}

fn count_shaped(tables: &UnitTables, types: &[Option<u32>], graph: &Graph) -> usize
    requires { AllPairs Precedes (out-Graph graph.now).edges }
{
    let mut count: usize = 0;
    for (place, node) in graph.nodes.as_slice().iter().enumerate() {
        if is_shaped(tables, output_at(types, place), graph, node) {
            count = count.saturating_add(1);
        }
    }
    count
}

/// How many nodes of a graph have a shape that is not the plain one.
pub fn shaped(
    alloc: Global,
    unit: &Sound,
    tables: &UnitTables,
    graph: &Graph,
) -> Result<usize, NoMemory>
    requires { IsGraphOf unit.now graph.now }
{
    unit.unit();
    let types = output_types(alloc, unit, graph)?;
    Ok(count_shaped(tables, types.as_slice(), graph))
}
