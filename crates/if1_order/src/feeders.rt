//! From which nodes edges lead to each node, by the places of nodes.
ghost use Rattle.std.specs.Prelude.{◌≡◌, ◌++◌, ◌∷◌, [], map, length, replicate, List, MatchOption, IfOk, OnOk, Contains};
ghost use Rattle.std.specs.List.Sorted.{IsStrictlyIncreasing};
ghost use Rattle.if1_graph.specs.declared.graph.Edge.{Edge};
ghost use Rattle.if1_graph.specs.Units.{label_of};
ghost use Rattle.if1_order.specs.Feeders.{IsPlace, IsJoined, AreFeeders};

use crate::walk::Places;
use flow_value::{NoMemory, Numbers, Seq};
use if1_graph::{Edge, Node, Origin};
use std::alloc::Global;

/// The labels of nodes, in order.
pub fn labels_of(alloc: Global, nodes: &[Node]) -> Result<Numbers, NoMemory>
    ensures { IfOk result (λ ls. ls ≡ map label_of nodes.now) }
{
    let mut labels = Seq::with_room(alloc, nodes.len())?;
    for node in nodes {
        labels.add(node.label)?;
    }
    Ok(labels)
}

/// The place of a label among rising ones. Halves the list until it is found.
pub fn place_of(labels: &[u32], label: u32) -> Option<usize>
    requires { IsStrictlyIncreasing labels.now }
    ensures { MatchOption result (¬ Contains labels.now label) (λ k. IsPlace labels.now k label) }
{
    match labels.binary_search(&label) {
        Ok(place) => Some(place),
        Err(_) => None,
    }
}

fn no_feeders(alloc: Global, places: usize) -> Result<Vec<Places>, NoMemory>
    ensures { IfOk result (λ v. v.items ≡ replicate places []) }
{
    let mut lists = Vec::with_capacity(alloc, places)?;
    for _ in 0..places {
        lists.push(Seq::new(alloc))?;
    }
    Ok(lists)
}

/// Enters that an edge leads from the node of the first label to that of the second; where one of them
/// is not there, the lists stay as they are.
pub fn join(labels: &[u32], from: u32, to: u32, lists: &mut Vec<Places>) -> Result<(), NoMemory>
    requires rising { IsStrictlyIncreasing labels.now }
    requires fit { length lists.old.items ≡ length labels.now }
    ensures { OnOk result (IsJoined labels.now from to lists.old.items lists.new.items) }
{
    let Some(source) = place_of(labels, from) else {
        return Ok(());
    };
    let Some(target) = place_of(labels, to) else {
        return Ok(());
    };
    lists[target].add(source)?;
    Ok(())
}

fn add_edge(labels: &[u32], edge: &Edge, lists: &mut Vec<Places>) -> Result<(), NoMemory>
    requires rising { IsStrictlyIncreasing labels.now }
    requires fit { length lists.old.items ≡ length labels.now }
    ensures { OnOk
        result
        ((es : List Edge) → AreFeeders labels.now es lists.old.items → AreFeeders labels.now (es ++ edge.now ∷ []) lists.new.items) }
{
    match &edge.from {
        Origin::Port(from, _) if *from != 0 && edge.node != 0 => join(
            labels, *from, edge.node, lists,
        ),
        _ => Ok(()),
    }
}

/// For each node, the places of the nodes from which edges lead to it.
pub fn feeders_by(alloc: Global, labels: &[u32], edges: &[Edge]) -> Result<Vec<Places>, NoMemory>
    requires { IsStrictlyIncreasing labels.now }
    ensures { IfOk result (λ v. AreFeeders labels.now edges.now v.items) }
{
    let mut lists = no_feeders(alloc, labels.len())?;
    for edge in edges {
        add_edge(labels, edge, &mut lists)?;
    }
    Ok(lists)
}
