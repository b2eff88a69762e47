//! The marks of one graph, before those of the graphs inside it.
ghost use Rattle.std.specs.Prelude.{◌≡◌, ◌<◌, ◌+◌, [], length, slice_index_or, IfOk};
ghost use Rattle.if1_graph.specs.declared.graph.Edge.{Edge};
ghost use Rattle.if1_graph.specs.declared.graph.Graph.TheViews.{out-Graph};
ghost use Rattle.take_marks.specs.Applied.{AreTaken, AreNodesListed};
ghost use Rattle.take_marks.specs.Made.{IsInShape, AreMade};
ghost use Rattle.mark_units.specs.Begun.{HasTaken, HasBegun};

use crate::note::{Notes, add_notes};
use flow_value::{NoMemory, Numbers, Seq};
use if1_graph::{EdgeList, Graph, NodeList};
use may_take::Flags;
use std::alloc::Global;
use take_marks::{GraphMarks, Why, marks_in, set_lists, set_takes};

/// How far a pass over the graphs of a unit has come.
#[derive(Drop)]
pub struct Pass {
    /// The place of the graph that comes next.
    pub at: usize,
    /// The notes so far.
    pub notes: Notes,
}

/// A graph whose edges take, and for each node the labels from which ordering edges lead to it.
#[derive(Drop)]
pub struct Begun {
    pub graph: Graph,
    pub befores: Vec<Numbers>,
}

fn take_edges(edges: EdgeList, whys: &[Why]) -> EdgeList
    requires { length whys.now ≡ length edges }
    ensures { AreTaken edges whys.now (length edges) result }
{
    let mut items = edges.into_vec();
    set_takes(&mut items, whys);
    Seq::from_vec(items)
}

/// The nodes with these ordering lists.
pub fn list_nodes(nodes: NodeList, befores: Vec<Numbers>) -> NodeList
    requires { length befores.items ≡ length nodes }
    ensures { AreNodesListed nodes befores.items 0 result }
{
    let mut items = nodes.into_vec();
    set_lists(&mut items, befores);
    Seq::from_vec(items)
}

fn with_takes(graph: Graph, whys: &[Why], befores: Vec<Numbers>) -> Begun
    requires { length whys.now ≡ length (out-Graph graph).edges }
    ensures { HasTaken graph whys.now befores.items result }
{
    let Graph {
        number,
        exported,
        name,
        fun,
        nodes,
        edges,
    } = graph;
    let edges = take_edges(edges, whys);
    Begun {
        graph: Graph {
            number,
            exported,
            name,
            fun,
            nodes,
            edges,
        },
        befores,
    }
}

fn flags_at(flags: &[Flags], at: usize) -> &[bool]
    requires { at < length flags.now }
    ensures { result.now ≡ slice_index_or flags.now at [] }
{
    flags[at].as_slice()
}

fn after(flags: &[Flags], at: usize) -> usize
    requires { at < length flags.now }
    ensures { result ≡ at + 1 }
{
    let count = flags.len();
    prove!(at < count);
    at + 1
}

/// The marks of the graph that comes next: its edges take, and it is noted why; the ordering lists of its
/// nodes are to come.
pub fn begin(
    alloc: Global,
    graph: Graph,
    flags: &[Flags],
    pass: &mut Pass,
) -> Result<Begun, NoMemory>
    requires there { pass.old.at < length flags.now }
    requires shape { IsInShape graph }
    requires flags { length (slice_index_or flags.now pass.old.at []) ≡ length (out-Graph graph).edges }
    ensures { IfOk result (λ r. HasBegun graph (slice_index_or flags.now pass.old.at []) pass.old pass.new r) }
{
    let GraphMarks { whys, befores } = marks_in(alloc, &graph, flags_at(flags, pass.at))?;
    let begun = with_takes(graph, whys.as_slice(), befores);
    add_notes(
        &mut pass.notes,
        begun.graph.number,
        begun.graph.edges.as_slice(),
        whys,
    )?;
    pass.at = after(flags, pass.at);
    Ok(begun)
}
