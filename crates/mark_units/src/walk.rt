//! The marks of the graphs of a unit, one after another.
ghost use Rattle.std.specs.Prelude.{drop, IfOk};
ghost use Rattle.mark_units.specs.Walked.{GraphNext, GraphMarked, NodesNext, NodesMarked, NodeNext, NodeMarked, PartsNext, PartsMarked};

use crate::begin::{Begun, Pass, begin, list_nodes};
use flow_value::{NoMemory, Seq};
use if1_graph::{Graph, GraphList, Node, NodeList};
use may_take::Flags;
use std::alloc::Global;

#[cycle(walk)]
fn mark_graph(
    alloc: Global,
    flags: &[Flags],
    graph: Graph,
    pass: &mut Pass,
) -> Result<Graph, NoMemory>
    requires { GraphNext graph (drop pass.old.at flags.now) }
    ensures { IfOk result (GraphMarked graph flags.now pass.old pass.new) }
{
    let Begun { graph, befores } = begin(alloc, graph, flags, pass)?;
    let Graph {
        number,
        exported,
        name,
        fun,
        nodes,
        edges,
    } = graph;
    let nodes = mark_nodes(alloc, flags, nodes, pass)?;
    Ok(Graph {
        number,
        exported,
        name,
        fun,
        nodes: list_nodes(nodes, befores),
        edges,
    })
}

#[cycle(walk)]
fn mark_nodes(
    alloc: Global,
    flags: &[Flags],
    nodes: NodeList,
    pass: &mut Pass,
) -> Result<NodeList, NoMemory>
    requires { NodesNext nodes (drop pass.old.at flags.now) }
    ensures { IfOk result (NodesMarked nodes flags.now pass.old pass.new) }
{
    let mut marked = Seq::with_room(alloc, nodes.len())?;
    let mut rest = nodes.into_vec().into_iter();
    while let Some(node) = rest.next() {
        marked.add(mark_node(alloc, flags, node, pass)?)?;
    }
    Ok(marked)
}

#[cycle(walk)]
fn mark_node(alloc: Global, flags: &[Flags], node: Node, pass: &mut Pass) -> Result<Node, NoMemory>
    requires { NodeNext node (drop pass.old.at flags.now) }
    ensures { IfOk result (NodeMarked node flags.now pass.old pass.new) }
{
    let Node {
        label,
        op,
        subs,
        assoc,
        before,
        name,
    } = node;
    let subs = mark_parts(alloc, flags, subs, pass)?;
    Ok(Node {
        label,
        op,
        subs,
        assoc,
        before,
        name,
    })
}

/// The graphs with the marks that are made in them and inside them, by the flags of their edges from
/// where the pass has come to. Calls itself once for each level of compound nodes.
#[cycle(walk)]
pub fn mark_parts(
    alloc: Global,
    flags: &[Flags],
    graphs: GraphList,
    pass: &mut Pass,
) -> Result<GraphList, NoMemory>
    requires { PartsNext graphs (drop pass.old.at flags.now) }
    ensures { IfOk result (PartsMarked graphs flags.now pass.old pass.new) }
{
    let mut marked = Seq::with_room(alloc, graphs.len())?;
    let mut rest = graphs.into_vec().into_iter();
    while let Some(graph) = rest.next() {
        marked.add(mark_graph(alloc, flags, graph, pass)?)?;
    }
    Ok(marked)
}
