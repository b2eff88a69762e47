//! From which nodes edges and ordering lists lead to each node of a graph, by places.
ghost use Rattle.std.specs.Prelude.{◌≡◌, length, IfOk, OnOk};
ghost use Rattle.std.specs.List.Sorted.{IsStrictlyIncreasing};
ghost use Rattle.if1_order.specs.Orders.{node_labels};
ghost use Rattle.marks_made.specs.Ways.{Links};
ghost use Rattle.if1_reach.specs.Nets.{IsNet, with_links, with_nodes, links_in};

use flow_value::NoMemory;
use if1_graph::{Graph, Node};
use if1_order::{Places, feeders_by, join};
use std::alloc::Global;

/// Enters that links lead from the nodes of all these labels to that of one. Labels of no node enter
/// nothing.
pub fn link_all(
    labels: &[u32],
    from: &[u32],
    to: u32,
    lists: &mut Vec<Places>,
) -> Result<(), NoMemory>
    requires rising { IsStrictlyIncreasing labels.now }
    requires fit { length lists.old.items ≡ length labels.now }
    ensures net { OnOk
        result
        ((links : Links) → IsNet labels.now lists.old.items links → IsNet labels.now lists.new.items (with_links links from.now to)) }
    ensures fit { OnOk result (length lists.new.items ≡ length labels.now) }
{
    for label in from {
        join(labels, *label, to, lists)?;
    }
    Ok(())
}

fn link_nodes(labels: &[u32], nodes: &[Node], lists: &mut Vec<Places>) -> Result<(), NoMemory>
    requires rising { IsStrictlyIncreasing labels.now }
    requires fit { length lists.old.items ≡ length labels.now }
    ensures { OnOk
        result
        ((links : Links) → IsNet labels.now lists.old.items links → IsNet labels.now lists.new.items (with_nodes links nodes.now)) }
{
    for node in nodes {
        link_all(labels, node.before.as_slice(), node.label, lists)?;
    }
    Ok(())
}

/// For each node, the places of the nodes from which edges and ordering lists lead to it. Takes time
/// linear in the nodes, and for each edge and entry of a list that of two searches among the nodes.
pub fn nets_of(alloc: Global, labels: &[u32], graph: &Graph) -> Result<Vec<Places>, NoMemory>
    requires labels { labels.now ≡ node_labels graph.now }
    requires rising { IsStrictlyIncreasing labels.now }
    ensures { IfOk result (λ v. IsNet labels.now v.items (links_in graph.now)) }
{
    let mut lists = feeders_by(alloc, labels, graph.edges.as_slice())?;
    link_nodes(labels, graph.nodes.as_slice(), &mut lists)?;
    Ok(lists)
}
