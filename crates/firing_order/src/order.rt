//! An order of the nodes of a graph along its data edges and ordering lists.
ghost use Rattle.std.specs.Prelude.{ℕ, IfOk};
ghost use Rattle.std.specs.List.Sorted.{IsStrictlyIncreasing};
ghost use Rattle.if1_order.specs.Orders.{node_labels};
ghost use Rattle.if1_marks.specs.Orders.{Precedes};
ghost use Rattle.firing_order.specs.Orders.{IsFiringOrder};

use flow_value::NoMemory;
use if1_graph::Graph;
use if1_order::{Places, Sorted, labels_of, sort};
use if1_reach::nets_of;
use std::alloc::Global;

/// The places of the nodes of a graph, each once, after all nodes that feed it and all on its ordering
/// list. Takes time linear in the nodes, and for each edge and entry of a list that of two searches
/// among the nodes.
pub fn firing_order(alloc: Global, graph: &Graph) -> Result<Places, NoMemory>
    requires rising { IsStrictlyIncreasing (node_labels graph.now) }
    requires acyclic { (l : ℕ) → ¬ Precedes graph.now l l }
    ensures { IfOk result (IsFiringOrder graph.now) }
{
    let labels = labels_of(alloc, graph.nodes.as_slice())?;
    let lists = nets_of(alloc, labels.as_slice(), graph)?;
    match sort(alloc, lists.as_slice())? {
        Sorted::InOrder(places) => Ok(places),
        Sorted::OnCircle(_) => unreachable!(),
    }
}
