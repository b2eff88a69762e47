//! Whether a unit has marks.
ghost use Rattle.std.specs.Prelude.{◌≡◌};
ghost use Rattle.std.specs.List.{list_any};
ghost use Rattle.unit_entry.specs.Marks.{has_marks, is_marked, is_marked_node, is_some_label};

use if1_graph::{Edge, Graph, Node, Unit1};

fn some_takes(edges: &[Edge]) -> bool
    ensures { result ≡ list_any (λ e. e.takes) edges.now }
{
    for edge in edges {
        if edge.takes {
            return true;
        }
    }
    false
}

fn has_label(labels: &[u32]) -> bool
    ensures { result ≡ is_some_label labels.now }
{
    0 < labels.len()
}

#[cycle(marks)]
#[tactic(auto, using(crate::proofs::OneLevel::by_nodes, crate::proofs::OneLevel::by_takers))]
fn is_marked(graph: &Graph) -> bool
    ensures { result ≡ is_marked graph.now }
{
    some_takes(graph.edges.as_slice()) || some_nodes(graph.nodes.as_slice())
}

#[cycle(marks)]
fn some_nodes(nodes: &[Node]) -> bool
    ensures { result ≡ list_any is_marked_node nodes.now }
{
    for node in nodes {
        if is_marked_node(node) {
            return true;
        }
    }
    false
}

#[cycle(marks)]
#[tactic(auto, using(crate::proofs::OneLevel::by_graphs, crate::proofs::OneLevel::by_list))]
fn is_marked_node(node: &Node) -> bool
    ensures { result ≡ is_marked_node node.now }
{
    has_label(node.before.as_slice()) || some_graphs(node.subs.as_slice())
}

#[cycle(marks)]
fn some_graphs(graphs: &[Graph]) -> bool
    ensures { result ≡ list_any is_marked graphs.now }
{
    for graph in graphs {
        if is_marked(graph) {
            return true;
        }
    }
    false
}

/// Whether an edge takes or a node has an ordering list, in any graph of the unit. Calls itself once for
/// each level of compound nodes.
pub fn has_marks(unit: &Unit1) -> bool
    ensures { result ≡ has_marks unit.now }
{
    some_graphs(unit.graphs.as_slice())
}
