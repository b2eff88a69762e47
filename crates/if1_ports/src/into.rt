//! The edges that lead into a node.
ghost use Rattle.std.specs.Prelude.{◌≡◌, ◌==◌, false, filter, All, AllPairs};
ghost use Rattle.if1_graph.specs.Normal.{Precedes};
ghost use Rattle.if1_graph.specs.Units.{results};
ghost use Rattle.if1_graph.specs.declared.graph.Graph.TheViews.{out-Graph};
ghost use Rattle.if1_ports.specs.Into.{stands_before};

use crate::fed::greatest_port;
use if1_graph::{Edge, Graph};

/// Whether edges into the one node stand before those into the other: labels rise, and the boundary, 0,
/// is last.
fn stands_before(one: u32, other: u32) -> bool
    ensures { result ≡ stands_before one other }
{
    one != 0 && (other == 0 || one < other)
}

/// The edges from the first one on that leads into no node before this one.
fn from_node(edges: &[Edge], node: u32) -> &[Edge]
    requires { AllPairs Precedes edges.now }
    ensures same { filter (λ e. e.node == node) result.now ≡ filter (λ e. e.node == node) edges.now }
    ensures order { AllPairs Precedes result.now }
    ensures none { All (λ e. stands_before e.node node ≡ false) result.now }
{
    let first = edges.partition_point(|e| stands_before(e.node, node));
    &edges[first..]
}

/// The edges before the first one that leads into a node after this one.
fn up_to_node(edges: &[Edge], node: u32) -> &[Edge]
    requires order { AllPairs Precedes edges.now }
    requires none { All (λ e. stands_before e.node node ≡ false) edges.now }
    ensures { result.now ≡ filter (λ e. e.node == node) edges.now }
{
    let end = edges.partition_point(|e| !stands_before(node, e.node));
    &edges[..end]
}

/// The edges into a node, or into the boundary for 0. Takes the time of two searches.
pub fn edges_into(edges: &[Edge], node: u32) -> &[Edge]
    requires { AllPairs Precedes edges.now }
    ensures { result.now ≡ filter (λ e. e.node == node) edges.now }
{
    up_to_node(from_node(edges, node), node)
}

/// How many results a graph has.
pub fn results_of(graph: &Graph) -> u32
    requires { AllPairs Precedes (out-Graph graph.now).edges }
    ensures { result ≡ results graph.now }
{
    greatest_port(edges_into(graph.edges.as_slice(), 0))
}
