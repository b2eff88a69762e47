//! The edges that lead into a node.
ghost use Rattle.std.specs.Prelude.{◌≡◌, ◌==◌, IsTrue};
ghost use Rattle.std.specs.List.{filter};
ghost use Rattle.std.specs.List.Sorted.{IsNonDecreasingBy};
ghost use Rattle.if1_write.specs.Texts.{rank, rank_of};

use if1_graph::Edge;

/// The place of a node among those by which edges stand: its label, and the boundary last.
fn rank(node: u32) -> u32
    ensures { result ≡ rank node }
{
    if node == 0 { u32::MAX } else { node - 1 }
}

/// Whether the edges stand by the nodes to which they lead.
pub fn are_in_order(edges: &[Edge]) -> bool
    ensures { IsTrue result → IsNonDecreasingBy rank_of edges.now }
{
    for i in 1..edges.len() {
        if rank(edges[i].node) < rank(edges[i - 1].node) {
            return false;
        }
    }
    true
}

/// The edges from the first one on that leads into no lower node.
fn from_node(edges: &[Edge], node: u32) -> &[Edge]
    requires { IsNonDecreasingBy rank_of edges.now }
    ensures same { filter (λ e. e.node == node) result.now ≡ filter (λ e. e.node == node) edges.now }
    ensures order { IsNonDecreasingBy rank_of result.now }
{
    let least = rank(node);
    let first = edges.partition_point(|e| rank(e.node) < least);
    &edges[first..]
}

/// The edges before the first one that leads into a higher node.
fn up_to_node(edges: &[Edge], node: u32) -> &[Edge]
    requires { IsNonDecreasingBy rank_of edges.now }
    ensures { filter (λ e. e.node == node) result.now ≡ filter (λ e. e.node == node) edges.now }
{
    let most = rank(node);
    let end = edges.partition_point(|e| rank(e.node) <= most);
    &edges[..end]
}

/// A range with all edges into a node; where the edges stand in order, with no others.
pub fn edges_near(edges: &[Edge], in_order: bool, node: u32) -> &[Edge]
    requires { IsTrue in_order → IsNonDecreasingBy rank_of edges.now }
    ensures { filter (λ e. e.node == node) result.now ≡ filter (λ e. e.node == node) edges.now }
{
    if in_order {
        up_to_node(from_node(edges, node), node)
    } else {
        edges
    }
}
