//! Labels on ordering lists: whether they are those of nodes, and close no cycle.
ghost use Rattle.std.specs.Prelude.{◌≡◌, ◌<◌, ◌↔◌, [], ℕ, length, slice_index, All, Contains, IfOk, IsTrue};
ghost use Rattle.std.specs.List.Sorted.{IsStrictlyIncreasing};
ghost use Rattle.if1_graph.specs.declared.graph.Graph.{Graph};
ghost use Rattle.if1_graph.specs.declared.graph.Graph.TheViews.{out-Graph};
ghost use Rattle.if1_graph.specs.declared.graph.Node.{out-Node};
ghost use Rattle.if1_order.specs.Orders.{IsLinked};
ghost use Rattle.if1_order.specs.Walks.{AreInside, Leads, feeders_of};
ghost use Rattle.mark_check.specs.Entries.{IsNetOf, AreCyclesOf, IsLinkedFrom, IsWrong, FirstWrong, FirstOnList, entries};

use flow_value::NoMemory;
use if1_components::components;
use if1_graph::{Graph, Node};
use if1_order::{Places, labels_of, place_of};
use if1_reach::{nets_of, ranked};
use std::alloc::Global;

/// Which places lead to each other.
#[derive(Drop)]
pub enum Cycles {
    /// No place leads to itself.
    Nowhere,
    /// Two places have one number exactly where they are the same or lead to each other.
    Numbered(Places),
}

// whether a place leads to one that links to it
fn leads_back(cycles: &Cycles, lists: &[Places], from: usize, to: usize) -> bool
    requires cycles { AreCyclesOf lists.now cycles.now }
    requires from { from < length lists.now }
    requires to { to < length lists.now }
    requires linked { Contains (feeders_of lists.now from) to }
    ensures { IsTrue result ↔ Leads lists.now from to }
{
    let _ = lists;
    match cycles {
        Cycles::Nowhere => false,
        Cycles::Numbered(numbers) => {
            let numbers = numbers.as_slice();
            numbers[from] == numbers[to]
        }
    }
}

fn is_wrong(labels: &[u32], lists: &[Places], cycles: &Cycles, at: usize, label: u32) -> bool
    requires rising { IsStrictlyIncreasing labels.now }
    requires fit { length lists.now ≡ length labels.now }
    requires cycles { AreCyclesOf lists.now cycles.now }
    requires at { at < length labels.now }
    requires linked { IsLinkedFrom labels.now lists.now at label }
    ensures { (g : Graph) → IsNetOf g labels.now lists.now → IsTrue result ↔ IsWrong g (slice_index labels.now at, label) }
{
    match place_of(labels, label) {
        Some(place) => leads_back(cycles, lists, at, place),
        None => true,
    }
}

fn first_on_list(
    labels: &[u32],
    lists: &[Places],
    cycles: &Cycles,
    at: usize,
    list: &[u32],
) -> Option<u32>
    requires rising { IsStrictlyIncreasing labels.now }
    requires fit { length lists.now ≡ length labels.now }
    requires cycles { AreCyclesOf lists.now cycles.now }
    requires at { at < length labels.now }
    requires linked { (l : ℕ) → Contains list.now l → IsLinkedFrom labels.now lists.now at l }
    ensures { (g : Graph) → IsNetOf g labels.now lists.now → FirstOnList g (slice_index labels.now at) list.now result }
{
    for label in list {
        if is_wrong(labels, lists, cycles, at, *label) {
            return Some(*label);
        }
    }
    None
}

fn cycles_of(alloc: Global, lists: &[Places]) -> Result<Cycles, NoMemory>
    requires { AreInside lists.now }
    ensures { IfOk result (AreCyclesOf lists.now) }
{
    let Some(_) = ranked(alloc, lists)? else {
        let numbers = components(alloc, lists)?;
        return Ok(Cycles::Numbered(numbers));
    };
    Ok(Cycles::Nowhere)
}

fn first_in(graph: &Graph, labels: &[u32], lists: &[Places], cycles: &Cycles) -> Option<(u32, u32)>
    requires rising { IsStrictlyIncreasing labels.now }
    requires fit { length lists.now ≡ length labels.now }
    requires count { length labels.now ≡ length (out-Graph graph.now).nodes }
    requires cycles { AreCyclesOf lists.now cycles.now }
    requires net { IsNetOf graph.now labels.now lists.now }
    ensures { FirstWrong graph.now (entries (out-Graph graph.now).nodes) result }
{
    for (at, node) in graph.nodes.as_slice().iter().enumerate() {
        let found = first_on_list(labels, lists, cycles, at, node.before.as_slice());
        if let Some(label) = found {
            return Some((node.label, label));
        }
    }
    None
}

fn wrong_in(alloc: Global, graph: &Graph) -> Result<Option<(u32, u32)>, NoMemory>
    requires { IsLinked graph.now }
    ensures { IfOk result (FirstWrong graph.now (entries (out-Graph graph.now).nodes)) }
{
    let labels = labels_of(alloc, graph.nodes.as_slice())?;
    let lists = nets_of(alloc, labels.as_slice(), graph)?;
    let cycles = cycles_of(alloc, lists.as_slice())?;
    Ok(first_in(graph, labels.as_slice(), lists.as_slice(), &cycles))
}

fn has_no_lists(nodes: &[Node]) -> bool
    ensures { IsTrue result ↔ All (λ n. (out-Node n).before ≡ []) nodes.now }
{
    for node in nodes {
        if !node.before.is_empty() {
            return false;
        }
    }
    true
}

/// The first label on an ordering list of a graph that is none of its nodes or closes a cycle: the
/// node's label and that label; none where all are right. Linear in the graph, but for a search among
/// the nodes for each edge and each entry.
pub fn first_wrong_entry(alloc: Global, graph: &Graph) -> Result<Option<(u32, u32)>, NoMemory>
    requires { IsLinked graph.now }
    ensures { IfOk result (FirstWrong graph.now (entries (out-Graph graph.now).nodes)) }
{
    if has_no_lists(graph.nodes.as_slice()) {
        return Ok(None);
    }
    wrong_in(alloc, graph)
}
