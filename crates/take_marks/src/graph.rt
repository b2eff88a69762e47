//! The marks that are made in one graph.
ghost use Rattle.std.specs.Prelude.{◌≡◌, ◌≢◌, ◌<◌, ℕ, [], length, map, replicate, Bool, Contains, IfOk, OnOk};
ghost use Rattle.std.specs.List.Sorted.{IsStrictlyIncreasing};
ghost use Rattle.if1_graph.specs.declared.graph.Edge.{Edge};
ghost use Rattle.if1_graph.specs.declared.graph.Graph.{Graph};
ghost use Rattle.if1_graph.specs.declared.graph.Graph.TheViews.{out-Graph};
ghost use Rattle.if1_order.specs.Orders.{node_labels};
ghost use Rattle.if1_order.specs.Walks.{AreInside, Leads};
ghost use Rattle.if1_reach.specs.Ranks.{IsRanked};
ghost use Rattle.if1_reach.specs.Users.{HasUsers};
ghost use Rattle.marks_made.specs.Made.{Orders};
ghost use Rattle.marks_made.specs.Laws.{IsMarkable};
ghost use Rattle.take_marks.specs.Made.{IsInShape, AreMade};
ghost use Rattle.take_marks.specs.Noted.{IsNoted, HasRun};

use crate::check::checked;
use crate::judging::judge;
use crate::why::Why;
use crate::wish::wished;
use flow_value::{NoMemory, Numbers, Seq};
use if1_graph::{Edge, Graph};
use if1_order::{Places, feeders_by, labels_of};
use if1_reach::{PortUsers, Ranks, port_users, ranked, users_of};
use std::alloc::Global;

/// The notes on the edges of a graph, and for each node the labels from which ordering edges lead to it.
#[derive(Drop)]
pub struct GraphMarks {
    /// A note for each edge.
    pub whys: Seq<Why>,
    /// The labels for each node, in no order.
    pub befores: Vec<Numbers>,
}

fn no_weights(alloc: Global, places: usize) -> Result<Numbers, NoMemory>
    ensures { IfOk result (λ r. r ≡ replicate places 0) }
{
    let mut weights = Seq::with_room(alloc, places)?;
    for _ in 0..places {
        weights.add(0)?;
    }
    Ok(weights)
}

fn no_lists(alloc: Global, places: usize) -> Result<Vec<Numbers>, NoMemory>
    ensures { IfOk result (λ v. v.items ≡ replicate places []) }
{
    let mut lists = Vec::with_capacity(alloc, places)?;
    for _ in 0..places {
        lists.push(Seq::new(alloc))?;
    }
    Ok(lists)
}

// what is noted of an edge
fn note(
    alloc: Global,
    graph: &Graph,
    labels: &[u32],
    users: &PortUsers,
    edge: &Edge,
    may: bool,
    lists: &mut Vec<Places>,
    ranks: &mut Ranks,
    weights: &mut Numbers,
    befores: &mut Vec<Numbers>,
) -> Result<Why, NoMemory>
    requires labels { labels.now ≡ node_labels graph.now }
    requires shape { IsInShape graph.now }
    requires users { HasUsers (out-Graph graph.now).edges users.now }
    requires there { Contains (out-Graph graph.now).edges edge.now }
    requires inside { AreInside lists.old.items }
    requires fit { length lists.old.items ≡ length labels.now }
    requires ranked { IsRanked lists.old.items ranks.old }
    requires weights { length weights.old ≡ length lists.old.items }
    requires befores { length befores.old.items ≡ length lists.old.items }
    ensures inside { OnOk result (AreInside lists.new.items) }
    ensures fit { OnOk result (length lists.new.items ≡ length lists.old.items) }
    ensures weights { OnOk result (length weights.new ≡ length lists.new.items) }
    ensures befores { OnOk result (length befores.new.items ≡ length lists.new.items) }
    ensures ranked { OnOk result (IsRanked lists.new.items ranks.new) }
    ensures noted { IfOk
        result
        (IsNoted graph.now edge.now may lists.old.items befores.old.items lists.new.items befores.new.items) }
{
    let _ = graph;
    if !may {
        return Ok(Why::Kept);
    }
    let port = users_of(users, &edge.from);
    judge(
        alloc, labels, port, edge.node, lists, ranks, weights, befores,
    )
}

// an order in which users come before presumed takers, or else any
fn first_ranks(
    alloc: Global,
    labels: &[u32],
    users: &PortUsers,
    edges: &[Edge],
    flags: &[bool],
    lists: &[Places],
) -> Result<Ranks, NoMemory>
    requires rising { IsStrictlyIncreasing labels.now }
    requires inside { AreInside lists.now }
    requires acyclic { (s : ℕ) → ¬ Leads lists.now s s }
    ensures { IfOk result (IsRanked lists.now) }
{
    let order = wished(alloc, labels, users, edges, flags, lists)?;
    if let Some(ranks) = checked(alloc, lists, order)? {
        return Ok(ranks);
    }
    match ranked(alloc, lists)? {
        Some(ranks) => Ok(ranks),
        None => unreachable!(),
    }
}

fn run(
    alloc: Global,
    graph: &Graph,
    labels: &[u32],
    users: &PortUsers,
    flags: &[bool],
    lists: &mut Vec<Places>,
    ranks: &mut Ranks,
    weights: &mut Numbers,
    befores: &mut Vec<Numbers>,
) -> Result<Seq<Why>, NoMemory>
    requires labels { labels.now ≡ node_labels graph.now }
    requires shape { IsInShape graph.now }
    requires flags { length flags.now ≡ length (out-Graph graph.now).edges }
    requires users { HasUsers (out-Graph graph.now).edges users.now }
    requires inside { AreInside lists.old.items }
    requires fit { length lists.old.items ≡ length labels.now }
    requires ranked { IsRanked lists.old.items ranks.old }
    requires weights { length weights.old ≡ length lists.old.items }
    requires befores { length befores.old.items ≡ length lists.old.items }
    ensures whys { IfOk result (λ whys. length whys ≡ length (out-Graph graph.now).edges) }
    ensures befores { OnOk result (length befores.new.items ≡ length labels.now) }
    ensures run { IfOk
        result
        (λ whys. HasRun graph.now flags.now (length (out-Graph graph.now).edges) lists.old.items befores.old.items lists.new.items befores.new.items whys) }
{
    let mut whys = Seq::new(alloc);
    for (index, edge) in graph.edges.as_slice().iter().enumerate() {
        let why = note(
            alloc,
            graph,
            labels,
            users,
            edge,
            flags[index],
            lists,
            ranks,
            weights,
            befores,
        )?;
        whys.add(why)?;
    }
    Ok(whys)
}

/// The marks that are made in a graph, whose edges may take where the flags say so. Takes time linear in
/// the graph, but for a search among the nodes for each edge and user, and for each edge that may take
/// that of its port's users and of the ranks between them.
pub fn marks_in(alloc: Global, graph: &Graph, flags: &[bool]) -> Result<GraphMarks, NoMemory>
    requires shape { IsInShape graph.now }
    requires flags { length flags.now ≡ length (out-Graph graph.now).edges }
    ensures whys { IfOk result (λ r. length r.whys ≡ length (out-Graph graph.now).edges) }
    ensures befores { IfOk result (λ r. length r.befores.items ≡ length (out-Graph graph.now).nodes) }
    ensures made { IfOk
        result
        (λ r. (may : Edge → Bool) → IsMarkable graph.now may → flags.now ≡ map may (out-Graph graph.now).edges → AreMade graph.now may r.whys r.befores.items) }
{
    let labels = labels_of(alloc, graph.nodes.as_slice())?;
    let mut lists = feeders_by(alloc, labels.as_slice(), graph.edges.as_slice())?;
    let users = port_users(alloc, graph.edges.as_slice())?;
    let mut ranks = first_ranks(
        alloc,
        labels.as_slice(),
        &users,
        graph.edges.as_slice(),
        flags,
        lists.as_slice(),
    )?;
    let mut weights = no_weights(alloc, labels.len())?;
    let mut befores = no_lists(alloc, labels.len())?;
    let whys = run(
        alloc,
        graph,
        labels.as_slice(),
        &users,
        flags,
        &mut lists,
        &mut ranks,
        &mut weights,
        &mut befores,
    )?;
    Ok(GraphMarks { whys, befores })
}
