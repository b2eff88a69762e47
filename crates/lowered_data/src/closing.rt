//! Graphs are closed: the ports of graphs around become inputs.
ghost use Rattle.std.specs.Prelude.{◌≡◌, ◌+◌, ◌<◌, ◌≤◌, length, All, get_or, slice_set, IfOk, OnOk};
ghost use Rattle.lowering.specs.Graphs.{resolved, closed_wire, closed_wires, closed_nodes};
ghost use Rattle.lowered_data.specs.Parts.{blank, node_closed, graph_closed, closed_at};

use crate::keys::Keys;
use flow_value::{NoMemory, Seq};
use lowering::{Feed, LoweredGraph, LoweredNode, Wire};
use std::mem;

/// The sum of two numbers of ports.
fn sum(a: usize, b: usize) -> Result<usize, NoMemory>
    ensures { IfOk result (λ s. s ≡ a + b) }
{
    match a.checked_add(b) {
        Some(s) => Ok(s),
        None => Err(NoMemory),
    }
}

/// A port in a closed graph, where some inputs of the node around stand before those ports, and all
/// of them before the graph's own inputs.
fn closed_port(
    keys: &Keys,
    first: usize,
    own: usize,
    up: usize,
    node: usize,
    port: usize,
) -> Result<Feed, NoMemory>
    requires { first ≤ 1 }
    ensures { IfOk result (λ f. f ≡ resolved keys.now first own (Feed.Port up node port)) }
{
    if up > 0 {
        let place = keys.place(up - 1, node, port);
        return Ok(Feed::Port(0, 0, first + place + 1));
    }
    if node > 0 {
        return Ok(Feed::Port(0, node, port));
    }
    Ok(Feed::Port(0, 0, sum(own, port)?))
}

/// What fills a port, in a closed graph.
fn close_wire(w: &mut Wire, keys: &Keys, first: usize, own: usize) -> Result<(), NoMemory>
    requires { first ≤ 1 }
    ensures { OnOk result (w.new ≡ closed_wire keys.now first own w.old) }
{
    let closed = match &w.feed {
        Feed::Port(up, node, port) => closed_port(keys, first, own, *up, *node, *port)?,
        _ => return Ok(()),
    };
    w.feed = closed;
    Ok(())
}

/// What fills ports, in a closed graph.
pub fn close_wires(
    wires: Seq<Wire>,
    keys: &Keys,
    first: usize,
    own: usize,
) -> Result<Seq<Wire>, NoMemory>
    requires { first ≤ 1 }
    ensures { IfOk result (λ ws. ws ≡ closed_wires keys.now first own wires) }
{
    let mut items = wires.into_vec();
    for place in 0..items.len() {
        close_wire(&mut items[place], keys, first, own)?;
    }
    Ok(Seq::from_vec(items))
}

/// A node of a closed graph.
fn close_node(node: &mut LoweredNode, keys: &Keys, first: usize, own: usize) -> Result<(), NoMemory>
    requires { first ≤ 1 }
    ensures { OnOk result (node.new ≡ node_closed keys.now first own node.old) }
{
    let fresh = node.ins.fresh();
    let ins = mem::replace(&mut node.ins, fresh);
    node.ins = close_wires(ins, keys, first, own)?;
    Ok(())
}

/// The nodes of a closed graph.
fn close_nodes(
    nodes: Seq<LoweredNode>,
    keys: &Keys,
    first: usize,
    own: usize,
) -> Result<Seq<LoweredNode>, NoMemory>
    requires { first ≤ 1 }
    ensures { IfOk result (λ vs. vs ≡ closed_nodes keys.now first own nodes) }
{
    let mut items = nodes.into_vec();
    for place in 0..items.len() {
        close_node(&mut items[place], keys, first, own)?;
    }
    Ok(Seq::from_vec(items))
}

/// A graph is closed, where these are the ports of the graph around that the node around has as
/// inputs, so many of which stand before them; its own inputs stand so many further on.
pub fn close_graph(
    graph: LoweredGraph,
    keys: &Keys,
    first: usize,
    own: usize,
) -> Result<LoweredGraph, NoMemory>
    requires { first ≤ 1 }
    ensures { IfOk result (λ g. g ≡ graph_closed keys.now first own graph) }
{
    let LoweredGraph { nodes, results } = graph;
    let nodes = close_nodes(nodes, keys, first, own)?;
    let results = close_wires(results, keys, first, own)?;
    Ok(LoweredGraph { nodes, results })
}

/// The graph at a place is closed.
fn close_at(
    graphs: Seq<LoweredGraph>,
    place: usize,
    keys: &Keys,
    first: usize,
    own: usize,
) -> Result<Seq<LoweredGraph>, NoMemory>
    requires within { place < length graphs }
    requires first { first ≤ 1 }
    ensures { IfOk result (λ gs. gs ≡ slice_set graphs place (graph_closed keys.now first own (get_or graphs place blank))) }
{
    let mut items = graphs.into_vec();
    let nothing = LoweredGraph {
        nodes: items[place].nodes.fresh(),
        results: items[place].results.fresh(),
    };
    let graph = mem::replace(&mut items[place], nothing);
    let closed = close_graph(graph, keys, first, own)?;
    let mut graphs = Seq::from_vec(items);
    graphs.set(place, closed);
    Ok(graphs)
}

/// The graphs at some places are closed.
pub fn close_graphs(
    graphs: Seq<LoweredGraph>,
    places: &[usize],
    keys: &Keys,
    first: usize,
    own: usize,
) -> Result<Seq<LoweredGraph>, NoMemory>
    requires within { All (λ p. p < length graphs) places.now }
    requires first { first ≤ 1 }
    ensures { IfOk result (λ gs. gs ≡ closed_at keys.now first own places.now graphs) }
{
    let mut graphs = graphs;
    for place in places {
        graphs = close_at(graphs, *place, keys, first, own)?;
    }
    Ok(graphs)
}
