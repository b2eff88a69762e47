//! Edges that take: the first in a graph that may not, and who is to blame.
ghost use Rattle.std.specs.Prelude.{◌≡◌, ◌≢◌, ◌==◌, ◌++◌, ◌∷◌, [], ◌↔◌, ◌<◌, ℕ, false, List, map, filter, length, All, Contains, IfOk, OnOk, IsTrue};
ghost use Rattle.std.specs.List.Sorted.{IsStrictlyIncreasing};
ghost use Rattle.if1_graph.specs.declared.graph.Edge.{Edge};
ghost use Rattle.if1_graph.specs.declared.graph.Graph.{Graph};
ghost use Rattle.if1_graph.specs.declared.graph.Graph.TheViews.{out-Graph};
ghost use Rattle.if1_graph.specs.declared.graph.Unit1.{Unit1};
ghost use Rattle.if1_graph.specs.Units.{Home, Place};
ghost use Rattle.if1_order.specs.Walks.{AreInside, Leads};
ghost use Rattle.if1_reach.specs.Ranks.{IsRanked};
ghost use Rattle.if1_reach.specs.Users.{AreGrouped, HasUsers};
ghost use Rattle.marks_made.specs.Units.{is_candidate};
ghost use Rattle.mark_check.specs.Entries.{IsNetOf};
ghost use Rattle.mark_check.specs.Late.{IsInOrder, IsScratch};
ghost use Rattle.mark_check.specs.Least.{IsLeast};
ghost use Rattle.mark_check.specs.Takers.{IsOwnFault, IsReader, IsReaderAt, IsLookedAt, FirstTaker, taking};

use crate::late::{Scratch, late_user};
use crate::least::{least_other, lesser};
use flow_value::NoMemory;
use if1_graph::{Edge, Graph};
use if1_order::{Places, labels_of};
use if1_reach::{PortUsers, Ranks, nets_of, note_edge, port_users, ranked, users_of};
use indexmap::IndexMap;
use std::alloc::Global;

/// Where an edge that may not take ends, and who is to blame.
#[derive(Clone, Copy, Debug, PartialEq, Eq)]
pub struct BadTaker {
    /// The node, 0 for the boundary.
    pub node: u32,
    /// The input port.
    pub port: u32,
    /// The least label of a node that is to blame, 0 for the boundary.
    pub reader: u32,
}

fn note_taker(alloc: Global, takers: &mut PortUsers, edge: &Edge) -> Result<(), NoMemory>
    requires { AreGrouped takers.old }
    ensures grouped { OnOk result (AreGrouped takers.new) }
    ensures taken { OnOk
        result
        ((es : List Edge) → HasUsers (taking es) takers.old → HasUsers (taking (es ++ edge.now ∷ [])) takers.new) }
{
    if !edge.takes {
        return Ok(());
    }
    note_edge(alloc, takers, edge)?;
    Ok(())
}

// the nodes to which taking edges lead from each port
fn port_takers(alloc: Global, edges: &[Edge]) -> Result<PortUsers, NoMemory>
    ensures { IfOk result (HasUsers (taking edges.now)) }
{
    let mut takers = PortUsers {
        groups: IndexMap::new(alloc),
        lists: Vec::new(alloc),
    };
    for edge in edges {
        note_taker(alloc, &mut takers, edge)?;
    }
    Ok(takers)
}

fn is_once(users: &[u32], node: u32) -> bool
    ensures { IsTrue result ↔ (length (filter (λ l. l == node) users.now) ≡ 1) }
{
    let mut count: usize = 0;
    for user in users {
        if *user == node {
            count += 1;
        }
    }
    count == 1
}

fn own_fault(users: &[u32], node: u32, may: bool) -> Option<u32>
    ensures { IsLeast (IsOwnFault users.now node may) result }
{
    if may && is_once(users, node) {
        return None;
    }
    Some(node)
}

fn reader_of(
    labels: &[u32],
    lists: &[Places],
    ranks: &Ranks,
    users: &[u32],
    takers: &[u32],
    node: u32,
    may: bool,
    scratch: &mut Scratch,
) -> Option<u32>
    requires rising { IsStrictlyIncreasing labels.now }
    requires inside { AreInside lists.now }
    requires fit { length lists.now ≡ length labels.now }
    requires ranked { IsRanked lists.now ranks.now }
    requires scratch { IsScratch lists.now scratch.old }
    requires node { node ≢ 0 → Contains labels.now node }
    ensures reader { (g : Graph) → IsInOrder g → IsNetOf g labels.now lists.now → IsLeast (IsReader g users.now takers.now node may) result }
    ensures scratch { IsScratch lists.now scratch.new }
{
    let own = own_fault(users, node, may);
    let taker = least_other(takers, node);
    let late = late_user(labels, lists, ranks, users, node, scratch);
    let others = lesser(taker, late);
    lesser(own, others)
}

// who is to blame that an edge may not take
fn reader_at(
    labels: &[u32],
    lists: &[Places],
    ranks: &Ranks,
    users: &PortUsers,
    takers: &PortUsers,
    edge: &Edge,
    may: bool,
    scratch: &mut Scratch,
) -> Option<u32>
    requires rising { IsStrictlyIncreasing labels.now }
    requires inside { AreInside lists.now }
    requires fit { length lists.now ≡ length labels.now }
    requires ranked { IsRanked lists.now ranks.now }
    requires scratch { IsScratch lists.now scratch.old }
    requires users { AreGrouped users.now }
    requires takers { AreGrouped takers.now }
    requires node { edge.now.node ≢ 0 → Contains labels.now edge.now.node }
    ensures reader { (u : Unit1) (p : Place)
        → IsLookedAt p.graph labels.now lists.now users.now takers.now
        → Contains (out-Graph p.graph).edges edge.now
        → may ≡ is_candidate u p edge.now
        → IsReaderAt u p edge.now result }
    ensures scratch { IsScratch lists.now scratch.new }
{
    if !edge.takes {
        return None;
    }
    let port = users_of(users, &edge.from);
    let taken = users_of(takers, &edge.from);
    reader_of(labels, lists, ranks, port, taken, edge.node, may, scratch)
}

fn first_bad(
    graph: &Graph,
    labels: &[u32],
    lists: &[Places],
    ranks: &Ranks,
    users: &PortUsers,
    takers: &PortUsers,
    flags: &[bool],
    scratch: &mut Scratch,
) -> Option<BadTaker>
    requires looked { IsLookedAt graph.now labels.now lists.now users.now takers.now }
    requires rising { IsStrictlyIncreasing labels.now }
    requires ranked { IsRanked lists.now ranks.now }
    requires flags { length flags.now ≡ length (out-Graph graph.now).edges }
    requires scratch { IsScratch lists.now scratch.old }
    ensures { (u : Unit1) (home : Home)
        → flags.now ≡ map (is_candidate u (record { graph = graph.now; home = home })) (out-Graph graph.now).edges
        → FirstTaker u (record { graph = graph.now; home = home }) result }
{
    for (index, edge) in graph.edges.as_slice().iter().enumerate() {
        let found = reader_at(
            labels,
            lists,
            ranks,
            users,
            takers,
            edge,
            flags[index],
            scratch,
        );
        if let Some(reader) = found {
            return Some(BadTaker {
                node: edge.node,
                port: edge.port,
                reader,
            });
        }
    }
    None
}

/// Whether no edge takes.
pub fn takes_nothing(edges: &[Edge]) -> bool
    ensures { IsTrue result ↔ All (λ e. e.takes ≡ false) edges.now }
{
    for edge in edges {
        if edge.takes {
            return false;
        }
    }
    true
}

fn ranks_of(alloc: Global, lists: &[Places]) -> Result<Ranks, NoMemory>
    requires inside { AreInside lists.now }
    requires acyclic { (s : ℕ) → s < length lists.now → ¬ Leads lists.now s s }
    ensures { IfOk result (IsRanked lists.now) }
{
    match ranked(alloc, lists)? {
        Some(ranks) => Ok(ranks),
        None => unreachable!(),
    }
}

fn bad_in(alloc: Global, graph: &Graph, flags: &[bool]) -> Result<Option<BadTaker>, NoMemory>
    requires order { IsInOrder graph.now }
    requires flags { length flags.now ≡ length (out-Graph graph.now).edges }
    ensures { IfOk
        result
        (λ r. (u : Unit1) (home : Home)
        → flags.now ≡ map (is_candidate u (record { graph = graph.now; home = home })) (out-Graph graph.now).edges
        → FirstTaker u (record { graph = graph.now; home = home }) r) }
{
    let edges = graph.edges.as_slice();
    let labels = labels_of(alloc, graph.nodes.as_slice())?;
    let lists = nets_of(alloc, labels.as_slice(), graph)?;
    let ranks = ranks_of(alloc, lists.as_slice())?;
    let users = port_users(alloc, edges)?;
    let takers = port_takers(alloc, edges)?;
    let mut scratch = Scratch::new(alloc, lists.as_slice().len())?;
    Ok(first_bad(
        graph,
        labels.as_slice(),
        lists.as_slice(),
        &ranks,
        &users,
        &takers,
        flags,
        &mut scratch,
    ))
}

/// The first taking edge of a graph that may not take, with who is to blame, where the flags say of each
/// edge whether it is a consuming one from an owned port; none where each may take. Linear in the graph, but
/// for searches among the nodes and for each taking edge the ranks between the users of its port.
pub fn first_bad_taker(
    alloc: Global,
    graph: &Graph,
    flags: &[bool],
) -> Result<Option<BadTaker>, NoMemory>
    requires order { IsInOrder graph.now }
    requires flags { length flags.now ≡ length (out-Graph graph.now).edges }
    ensures { IfOk
        result
        (λ r. (u : Unit1) (home : Home)
        → flags.now ≡ map (is_candidate u (record { graph = graph.now; home = home })) (out-Graph graph.now).edges
        → FirstTaker u (record { graph = graph.now; home = home }) r) }
{
    if takes_nothing(graph.edges.as_slice()) {
        return Ok(None);
    }
    bad_in(alloc, graph, flags)
}
