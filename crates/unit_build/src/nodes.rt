//! Nodes, with the graphs inside of them.
ghost use Rattle.std.specs.Prelude.{◌≡◌, ◌≤◌, ◌+◌, ◌∷◌, [], ◌++◌, length, take, drop, All, IfOk, OnOk};
ghost use Rattle.if1_graph.specs.declared.graph.Node.{out-Node};
ghost use Rattle.lowered_units.specs.Listed.{node_listing};
ghost use Rattle.lowered_units.specs.Units.{listed_node, listed_nodes, node_edges, edges_of};
ghost use Rattle.lowering.specs.TooMany.{most_nodes};
ghost use Rattle.unit_build.specs.Nesting.{listed, parts, BeginWith, Hold};
ghost use Rattle.unit_build.specs.Readiness.{IsReadyNode, IsReadyGraph};

use crate::codes::{compound_code, simple_code};
use crate::maker::Maker;
use flow_value::{Name, NoMemory, Numbers, Seq};
use if1_graph::{EdgeList, Graph, GraphList, Node, NodeList, Simple};
use lowering::{Action, LoweredGraph, LoweredNode};
use std::alloc::Global;
use std::collections::VecDeque;

/// Takes so many graphs off the front.
fn taken(alloc: Global, count: usize, made: &mut VecDeque<Graph>) -> Result<GraphList, NoMemory>
    requires { count ≤ length made.old.items }
    ensures front { IfOk result (λ gs. gs ≡ take count made.old.items) }
    ensures rest { OnOk result (made.new.items ≡ drop count made.old.items) }
{
    let mut parts = GraphList::with_room(alloc, count)?;
    for place in 0..count {
        match made.pop_front() {
            Some(graph) => parts.add(graph)?,
            None => unreachable!(),
        }
    }
    Ok(parts)
}

/// A node with these graphs inside.
fn node_with(alloc: Global, label: u32, op: u32, subs: GraphList, assoc: Numbers) -> Node
    ensures { out-Node result ≡ record { label = label; op = op; subs = subs; assoc = assoc; before = []; name = [] } }
{
    Node {
        label,
        op,
        subs,
        assoc,
        before: Numbers::new(alloc),
        name: Name::new(alloc),
    }
}

/// A node that does this, with the first of the graphs inside.
fn node_of(
    alloc: Global,
    label: u32,
    action: Action,
    made: &mut VecDeque<Graph>,
) -> Result<Node, NoMemory>
    requires { BeginWith (listed_node label action).parts made.old.items }
    ensures node { IfOk result (λ n. (node_listing n).node ≡ listed_node label action) }
    ensures inside { IfOk result (λ n. (out-Node n).subs ++ made.new.items ≡ made.old.items) }
    ensures rest { OnOk result (made.new.items ≡ drop (length (listed_node label action).parts) made.old.items) }
{
    match action {
        Action::Row(op) => Ok(simple_node(alloc, label, simple_code(op))),
        Action::Call(_) => Ok(simple_node(alloc, label, simple_code(Simple::Call))),
        Action::Whole(compound, graphs, arms, _, _) => {
            let subs = taken(alloc, graphs.len(), made)?;
            Ok(node_with(alloc, label, compound_code(compound), subs, arms))
        }
    }
}

/// A node without graphs inside.
fn simple_node(alloc: Global, label: u32, op: u32) -> Node
    ensures { out-Node result ≡ record { label = label; op = op; subs = []; assoc = []; before = []; name = [] } }
{
    node_with(alloc, label, op, GraphList::new(alloc), Numbers::new(alloc))
}

/// The nodes and edges of a graph.
#[derive(Drop)]
pub struct Body {
    pub nodes: NodeList,
    pub edges: EdgeList,
}

/// Room for the edges into nodes.
fn room(alloc: Global, nodes: &[LoweredNode], results: usize) -> Result<EdgeList, NoMemory>
    ensures { IfOk result (λ edges. edges ≡ []) }
{
    let mut most = results;
    for node in nodes {
        most = most.saturating_add(node.ins.len());
        if let Action::Call(_) = &node.action {
            most = most.saturating_add(1);
        }
    }
    EdgeList::with_room(alloc, most)
}

impl Maker<'_> {
    /// Adds a node, with the first of the graphs inside, and the edges into it.
    fn put_node(
        &self,
        label: u32,
        node: LoweredNode,
        made: &mut VecDeque<Graph>,
        body: &mut Body,
    ) -> Result<(), NoMemory>
        requires begin { BeginWith (listed_node label node.action).parts made.old.items }
        requires ready { IsReadyNode self.now.program.now node }
        ensures nodes { OnOk result (listed body.new.nodes ≡ listed body.old.nodes ++ listed_node label node.action ∷ []) }
        ensures inside { OnOk result (parts body.new.nodes ++ made.new.items ≡ parts body.old.nodes ++ made.old.items) }
        ensures rest { OnOk result (made.new.items ≡ drop (length (listed_node label node.action).parts) made.old.items) }
        ensures edges { OnOk result (body.new.edges ≡ body.old.edges ++ node_edges self.now.program.now label node.action node.ins) }
    {
        let LoweredNode { action, ins } = node;
        self.put_node_edges(label, &action, ins, &mut body.edges)?;
        let node = node_of(self.alloc, label, action, made)?;
        body.nodes.add(node)
    }

    /// Nodes, with the first of the graphs inside, and the edges into them, with room for so many more.
    fn put_nodes(
        &self,
        nodes: Seq<LoweredNode>,
        results: usize,
        made: &mut VecDeque<Graph>,
    ) -> Result<Body, NoMemory>
        requires few { length nodes ≤ most_nodes }
        requires ready { All (IsReadyNode self.now.program.now) nodes }
        requires hold { Hold (listed_nodes 1 nodes) made.old.items }
        ensures nodes { IfOk result (λ body. listed body.nodes ≡ listed_nodes 1 nodes) }
        ensures inside { IfOk result (λ body. parts body.nodes ++ made.new.items ≡ made.old.items) }
        ensures edges { IfOk result (λ body. body.edges ≡ edges_of self.now.program.now 1 nodes []) }
    {
        let mut body = Body {
            nodes: NodeList::with_room(self.alloc, nodes.len())?,
            edges: room(self.alloc, nodes.as_slice(), results)?,
        };
        let mut label = 1;
        let mut left = nodes.into_vec().into_iter();
        while let Some(node) = left.next() {
            self.put_node(label, node, made, &mut body)?;
            label += 1;
        }
        Ok(body)
    }

    /// The nodes and edges of a graph, which has the first of the graphs inside.
    pub fn body_of(&self, graph: LoweredGraph, made: &mut VecDeque<Graph>) -> Result<Body, NoMemory>
        requires ready { IsReadyGraph self.now.program.now graph }
        requires hold { Hold (listed_nodes 1 graph.nodes) made.old.items }
        ensures nodes { IfOk result (λ body. listed body.nodes ≡ listed_nodes 1 graph.nodes) }
        ensures inside { IfOk result (λ body. parts body.nodes ++ made.new.items ≡ made.old.items) }
        ensures edges { IfOk result (λ body. body.edges ≡ edges_of self.now.program.now 1 graph.nodes graph.results) }
    {
        let LoweredGraph { nodes, results } = graph;
        let mut body = self.put_nodes(nodes, results.len(), made)?;
        self.put_edges(0, 1, results, &mut body.edges)?;
        Ok(body)
    }
}
