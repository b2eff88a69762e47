//! The edge that leads to a port, among edges in order.
ghost use Rattle.std.specs.Prelude.{◌≡◌, ◌<◌, ◌≤◌, ℕ, None, Some, option_and_then, slice_get, AllPairs, IfSome};
ghost use Rattle.std.specs.Option.{option_copied};
ghost use Rattle.if1_graph.specs.declared.graph.Edge.{Edge};
ghost use Rattle.if1_graph.specs.Normal.{Precedes};
ghost use Rattle.port_feeds.specs.Found.{edge_found, if_leading, stands_before};

use flow_value::item_at;
use if1_graph::Edge;

fn stands_before(edge: &Edge, node: u32, port: u32) -> bool
    ensures { result ≡ stands_before node port edge.now }
{
    if edge.node == node {
        return edge.port < port;
    }
    edge.node != 0 && (node == 0 || edge.node < node)
}

/// At which place among these an edge to this port stands, if one does. Takes a search.
pub fn place_of(edges: &[Edge], node: u32, port: u32) -> usize
    requires { AllPairs Precedes edges.now }
    ensures { option_and_then (if_leading node port) (slice_get edges.now result) ≡ edge_found edges.now node port }
{
    edges.partition_point(|e| stands_before(e, node, port))
}

// an edge to another node or to a lower port is no answer
fn port_up(edge: Option<&Edge>, node: u32, port: u32) -> Option<u32>
    ensures { IfSome result (λ p. (e : Edge) × (option_copied edge.entry ≡ Some e) × (e.node ≡ node) × (e.port ≡ p) × (port ≤ p)) }
{
    match edge {
        Some(edge) if edge.node == node && port <= edge.port => Some(edge.port),
        _ => None,
    }
}

/// The port of the first edge to this node from a port on. Takes a search.
fn port_from(edges: &[Edge], node: u32, port: u32) -> Option<u32>
    requires { AllPairs Precedes edges.now }
    ensures from { IfSome result (λ p. port ≤ p) }
    ensures between { IfSome result (λ p. (j : ℕ) → port ≤ j → j < p → edge_found edges.now node j ≡ None) }
{
    let place = edges.partition_point(|e| stands_before(e, node, port));
    port_up(item_at(edges, place), node, port)
}

/// A port behind this one, up to the last one, between which and this one no edge leads to the node.
pub fn port_behind(edges: &[Edge], node: u32, port: u32, last: u32) -> u32
    requires order { AllPairs Precedes edges.now }
    requires below { port < last }
    ensures behind { port < result }
    ensures up { result ≤ last }
    ensures between { (j : ℕ) → port < j → j < result → edge_found edges.now node j ≡ None }
{
    match port_from(edges, node, port + 1) {
        Some(next) if next <= last => next,
        _ => port + 1,
    }
}

// an edge to another port is no answer
fn if_leading(edge: Option<&Edge>, node: u32, port: u32) -> Option<&Edge>
    ensures { option_copied result ≡ option_and_then (if_leading node port) (option_copied edge.entry) }
{
    match edge {
        Some(edge) if edge.node == node && edge.port == port => Some(edge),
        _ => None,
    }
}

/// The edge at a place, if it leads to this port.
pub fn edge_at(edges: &[Edge], place: usize, node: u32, port: u32) -> Option<&Edge>
    ensures { option_copied result ≡ option_and_then (if_leading node port) (slice_get edges.now place) }
{
    if_leading(item_at(edges, place), node, port)
}
