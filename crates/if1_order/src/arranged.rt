//! An order of the nodes of a graph along its data edges.
ghost use Rattle.std.specs.Prelude.{◌≡◌, ◌<◌, map, length, slice_index, All, IfOk};
ghost use Rattle.if1_order.specs.Orders.{IsLinked, Orders};
ghost use Rattle.if1_order.specs.Walks.{AreInside};
ghost use Rattle.if1_order.specs.Arranged.{Arranges};

use crate::feeders::{feeders_by, labels_of};
use crate::walk::{Places, Sorted, sort};
use flow_value::{NoMemory, Numbers, Seq};
use if1_graph::Graph;
use std::alloc::Global;

/// The nodes of a graph along its data edges.
#[derive(Drop)]
pub enum NodeOrder {
    /// The label of each node once, after those of all nodes from which an edge leads to it.
    Nodes(Numbers),
    /// The label of a node that reaches itself.
    Circle(u32),
}

/// The labels at these places.
pub fn labelled(alloc: Global, labels: &[u32], places: &[usize]) -> Result<Numbers, NoMemory>
    requires { All (λ k. k < length labels.now) places.now }
    ensures { IfOk result (λ ls. ls ≡ map (slice_index labels.now) places.now) }
{
    let mut list = Seq::with_room(alloc, places.len())?;
    for place in places {
        list.add(labels[*place])?;
    }
    Ok(list)
}

fn arrange(alloc: Global, labels: &[u32], lists: &[Places]) -> Result<NodeOrder, NoMemory>
    requires inside { AreInside lists.now }
    requires fit { length lists.now ≡ length labels.now }
    ensures { IfOk result (Arranges labels.now lists.now) }
{
    match sort(alloc, lists)? {
        Sorted::InOrder(places) => {
            let list = labelled(alloc, labels, places.as_slice())?;
            Ok(NodeOrder::Nodes(list))
        }
        Sorted::OnCircle(place) => Ok(NodeOrder::Circle(labels[place])),
    }
}

/// An order of the nodes of a graph along its data edges, or a node that reaches itself. Takes time
/// linear in the nodes, and for each edge that of two searches among the nodes.
pub fn order(alloc: Global, graph: &Graph) -> Result<NodeOrder, NoMemory>
    requires { IsLinked graph.now }
    ensures { IfOk result (Orders graph.now) }
{
    let labels = labels_of(alloc, graph.nodes.as_slice())?;
    let feeders = feeders_by(alloc, labels.as_slice(), graph.edges.as_slice())?;
    let found = arrange(alloc, labels.as_slice(), feeders.as_slice())?;
    Ok(found)
}
