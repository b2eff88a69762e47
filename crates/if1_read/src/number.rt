//! Numbers of graphs.
ghost use Rattle.std.specs.Prelude.{◌≡◌, ◌+◌, ◌<◌, ◌^◌, suc, map, sum};
ghost use Rattle.if1_graph.specs.declared.graph.Graph.TheViews.{out-Graph};
ghost use Rattle.if1_graph.specs.Units.{size, sizes};
ghost use Rattle.if1_read.specs.Like.{IsLike, AreNodesLike, AreLike};
ghost use Rattle.if1_read.specs.Counted.{node_size, IsCounted, AreNodesCounted, AreCounted};

use flow_value::Seq;
use if1_graph::{Graph, GraphList, Node, NodeList};

#[cycle(numbers)]
fn number_graph(graph: &mut Graph, before: u32) -> u32
    requires room { before + size graph.old < 2 ^ 32 }
    ensures like { IsLike graph.old graph.new }
    ensures number { (out-Graph graph.new).number ≡ suc before }
    ensures counted { IsCounted graph.new }
    ensures last { result ≡ before + size graph.new }
{
    graph.number = before + 1;
    number_nodes(&mut graph.nodes, before + 1)
}

#[cycle(numbers)]
fn number_nodes(nodes: &mut NodeList, before: u32) -> u32
    requires room { before + sum (map node_size nodes.old) < 2 ^ 32 }
    ensures like { AreNodesLike nodes.old nodes.new }
    ensures counted { AreNodesCounted (suc before) nodes.new }
    ensures last { result ≡ before + sum (map node_size nodes.new) }
{
    let fresh = nodes.fresh();
    let mut items = std::mem::replace(nodes, fresh).into_vec();
    let mut last = before;
    for node in items.iter_mut() {
        last = number_parts(&mut node.subs, last);
    }
    *nodes = Seq::from_vec(items);
    last
}

/// Numbers graphs, and those inside them, behind a number; the last number.
#[cycle(numbers)]
pub fn number_parts(graphs: &mut GraphList, before: u32) -> u32
    requires room { before + sizes graphs.old < 2 ^ 32 }
    ensures like { AreLike graphs.old graphs.new }
    ensures counted { AreCounted (suc before) graphs.new }
    ensures last { result ≡ before + sizes graphs.new }
{
    let fresh = graphs.fresh();
    let mut items = std::mem::replace(graphs, fresh).into_vec();
    let mut last = before;
    for graph in items.iter_mut() {
        last = number_graph(graph, last);
    }
    *graphs = Seq::from_vec(items);
    last
}
