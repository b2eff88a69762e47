//! Paths between nodes of a graph.
ghost use Rattle.std.specs.Prelude.{◌≡◌, length, MatchOption, IfOk};
ghost use Rattle.std.specs.List.Sorted.{IsStrictlyIncreasing};
ghost use Rattle.if1_order.specs.Orders.{node_labels};
ghost use Rattle.if1_order.specs.Walks.{AreInside};
ghost use Rattle.if1_marks.specs.Orders.{Precedes};
ghost use Rattle.marks_made.specs.Ways.{Links, Leads};
ghost use Rattle.if1_reach.specs.Nets.{IsNet, AreLinked, IsLinkedInside, links_in};
ghost use Rattle.if1_reach.specs.Paths.{IsPath};

use crate::nets::nets_of;
use crate::search::way;
use flow_value::{NoMemory, Numbers};
use if1_graph::Graph;
use if1_order::{Places, labelled, labels_of, place_of};
use std::alloc::Global;

/// The labels of the nodes on a way along edges and ordering lists, both ends among them.
pub type Path = Numbers;

/// A path between nodes of these labels, by the lists of places; none exactly where there is none.
pub fn path_by(
    alloc: Global,
    labels: &[u32],
    lists: &[Places],
    from: u32,
    to: u32,
) -> Result<Option<Path>, NoMemory>
    requires rising { IsStrictlyIncreasing labels.now }
    requires inside { AreInside lists.now }
    requires fit { length lists.now ≡ length labels.now }
    ensures { IfOk
        result
        (λ r.
        (links : Links) → IsNet labels.now lists.now links → AreLinked labels.now links →
        MatchOption r (¬ Leads links from to) (IsPath links from to)) }
{
    let Some(source) = place_of(labels, from) else {
        return Ok(None);
    };
    let Some(target) = place_of(labels, to) else {
        return Ok(None);
    };
    match way(alloc, lists, source, target)? {
        Some(places) => {
            let found = labelled(alloc, labels, places.as_slice())?;
            Ok(Some(found))
        }
        None => Ok(None),
    }
}

/// A path between two nodes of a graph along its edges and ordering lists, of one step at least; none
/// exactly where there is none. Linear in the graph, but for a search among the nodes for each edge.
pub fn path(alloc: Global, graph: &Graph, from: u32, to: u32) -> Result<Option<Path>, NoMemory>
    requires rising { IsStrictlyIncreasing (node_labels graph.now) }
    requires linked { IsLinkedInside graph.now }
    ensures { IfOk
        result
        (λ r. MatchOption r (¬ Precedes graph.now from to) (IsPath (links_in graph.now) from to)) }
{
    let labels = labels_of(alloc, graph.nodes.as_slice())?;
    let lists = nets_of(alloc, labels.as_slice(), graph)?;
    let found = path_by(alloc, labels.as_slice(), lists.as_slice(), from, to)?;
    Ok(found)
}
