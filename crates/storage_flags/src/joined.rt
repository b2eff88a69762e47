//! Which nodes of a graph give what an ACatenate takes.
ghost use Rattle.std.specs.Prelude.{◌≡◌, ◌&&◌, ◌||◌, ◌++◌, ◌∷◌, [], ℕ, map, IfOk, OnOk, if◌then◌else◌};
ghost use Rattle.std.specs.List.{list_any};
ghost use Rattle.std.specs.List.Sorted.{IsStrictlyIncreasing};
ghost use Rattle.std.specs.Option.{option_copied};
ghost use Rattle.if1_graph.specs.declared.graph.Graph.TheViews.{out-Graph};
ghost use Rattle.if1_graph.specs.Ports.{leaves};
ghost use Rattle.if1_graph.specs.Units.{label_of};
ghost use Rattle.graph_meaning.specs.StorageUnits.{operation, is_catenation, is_taken_on};
ghost use Rattle.may_take.specs.Ports.{has};
ghost use Rattle.storage_flags.specs.Flags.{operation_by};

use flow_value::{NoMemory, Numbers, Seq};
use if1_graph::{Edge, Graph, Node, Origin, Simple, node_of, simple_of};
use may_take::PortSet;
use std::alloc::Global;

fn is_catenation(op: Option<Simple>) -> bool
    ensures { result ≡ is_catenation op }
{
    matches!(op, Some(Simple::ACatenate))
}

fn operation_of(node: Option<&Node>) -> Option<Simple>
    ensures { result ≡ operation_by (option_copied node.entry) }
{
    match node {
        Some(node) => simple_of(node.op),
        None => None,
    }
}

fn is_joining(graph: &Graph, edge: &Edge) -> bool
    requires { IsStrictlyIncreasing (map label_of (out-Graph graph.now).nodes) }
    ensures { result ≡ (edge.now.takes && is_catenation (operation graph.now edge.now.node)) }
{
    if !edge.takes {
        return false;
    }
    is_catenation(operation_of(node_of(graph.nodes.as_slice(), edge.node)))
}

// the node from whose first output an edge comes is added, if the flag is set
fn add_label(labels: &mut Numbers, from: &Origin, flag: bool) -> Result<(), NoMemory>
    ensures { OnOk result ((l : ℕ) → has labels.new l ≡ has labels.old l || (leaves l 1 from.now && flag)) }
{
    match from {
        Origin::Port(label, 1) if flag => labels.add(*label),
        _ => Ok(()),
    }
}

/// The labels of the nodes of a graph whose first output an ACatenate takes. Takes for each edge that
/// takes the time of a search among the nodes.
pub fn joined_nodes(alloc: Global, graph: &Graph) -> Result<PortSet, NoMemory>
    requires { IsStrictlyIncreasing (map label_of (out-Graph graph.now).nodes) }
    ensures { IfOk result (λ r. (l : ℕ) → has r l ≡ is_taken_on graph.now l) }
{
    let mut labels = Seq::new(alloc);
    for edge in graph.edges.as_slice() {
        add_label(&mut labels, &edge.from, is_joining(graph, edge))?;
    }
    Ok(PortSet::of(labels))
}
