//! A graph with the marks that are made in it.
ghost use Rattle.std.specs.Prelude.{◌≡◌, ◌<◌, length, Bool};
ghost use Rattle.if1_graph.specs.declared.graph.Edge.{Edge};
ghost use Rattle.if1_graph.specs.declared.graph.Graph.TheViews.{out-Graph};
ghost use Rattle.marks_made.specs.Made.{is_taken, marked};
ghost use Rattle.marks_made.specs.Laws.{IsMarkable};
ghost use Rattle.take_marks.specs.Whys.{answer_of};
ghost use Rattle.take_marks.specs.Made.{IsInShape, AreMade};
ghost use Rattle.take_marks.specs.Applied.{AreTaken, AreNodesListed, AreOnce, IsListedAt};

use crate::graph::GraphMarks;
use crate::why::Why;
use flow_value::{Numbers, Seq};
use if1_graph::{Edge, Graph, Node};

fn takes(why: &Why) -> bool
    ensures { result ≡ is_taken (answer_of why.now) }
{
    matches!(why, Why::Taken)
}

pub fn set_takes(edges: &mut Vec<Edge>, whys: &[Why])
    requires { length whys.now ≡ length edges.old.items }
    ensures { AreTaken edges.old.items whys.now (length edges.old.items) edges.new.items }
{
    for (index, why) in whys.iter().enumerate() {
        edges[index].takes = takes(why);
    }
}

fn sort_once(labels: &mut Vec<u32>)
    ensures { AreOnce labels.old.items labels.new.items }
{
    labels.sort_unstable();
    labels.dedup();
}

fn once(labels: Numbers) -> Numbers
    ensures { AreOnce labels result }
{
    let mut items = labels.into_vec();
    sort_once(&mut items);
    Seq::from_vec(items)
}

fn set_list(nodes: &mut Vec<Node>, index: usize, labels: Numbers)
    requires { index < length nodes.old.items }
    ensures { IsListedAt nodes.old.items index labels nodes.new.items }
{
    nodes[index].before = once(labels);
}

pub fn set_lists(nodes: &mut Vec<Node>, befores: Vec<Numbers>)
    requires { length befores.items ≡ length nodes.old.items }
    ensures { AreNodesListed nodes.old.items befores.items 0 nodes.new.items }
{
    let mut befores = befores;
    while let Some(labels) = befores.pop() {
        let index = befores.as_slice().len();
        set_list(nodes, index, labels);
    }
}

/// The graph with these marks in place of those that it had.
pub fn with_marks(graph: Graph, marks: GraphMarks) -> Graph
    requires shape { IsInShape graph }
    requires whys { length marks.whys ≡ length (out-Graph graph).edges }
    requires befores { length marks.befores.items ≡ length (out-Graph graph).nodes }
    ensures { (may : Edge → Bool) → IsMarkable graph may → AreMade graph may marks.whys marks.befores.items → result ≡ marked graph may }
{
    let GraphMarks { whys, befores } = marks;
    let Graph {
        number,
        exported,
        name,
        fun,
        nodes,
        edges,
    } = graph;
    let mut edges = edges.into_vec();
    set_takes(&mut edges, whys.as_slice());
    let mut nodes = nodes.into_vec();
    set_lists(&mut nodes, befores);
    Graph {
        number,
        exported,
        name,
        fun,
        nodes: Seq::from_vec(nodes),
        edges: Seq::from_vec(edges),
    }
}
