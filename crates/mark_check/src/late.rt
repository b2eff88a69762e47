//! Which users of a port come before its taker.
ghost use Rattle.std.specs.Prelude.{◌≡◌, ◌≢◌, ◌<◌, ◌≤◌, ◌↔◌, ℕ, suc, None, length, slice_index, All, Contains, IfOk, IsTrue};
ghost use Rattle.std.specs.List.Sorted.{IsStrictlyIncreasing};
ghost use Rattle.if1_graph.specs.declared.graph.Graph.{Graph};
ghost use Rattle.if1_order.specs.Feeders.{IsPlace};
ghost use Rattle.if1_order.specs.Walks.{AreInside, Lists};
ghost use Rattle.if1_reach.specs.Ranks.{IsRanked};
ghost use Rattle.mark_check.specs.Entries.{IsNetOf};
ghost use Rattle.mark_check.specs.Least.{IsLeast, IsAmong};
ghost use Rattle.mark_check.specs.Late.{IsInOrder, IsLow, AreCleared, AreTold, IsEarly, IsLate, IsAfter, AreStamps, IsScratch, AreStamped};

use crate::least::keep;
use flow_value::{NoMemory, Numbers, Seq};
use if1_order::{Places, place_of};
use if1_reach::{Ranks, sink};
use std::alloc::Global;

/// What is kept of places from one taker to the next.
#[derive(Drop)]
pub struct Scratch {
    /// Which places lead to the last taker that was looked at.
    pub weights: Numbers,
    /// Which places lead straight to which taker.
    pub stamps: Places,
}

impl Scratch {
    /// Room for so many places.
    pub fn new(alloc: Global, places: usize) -> Result<Scratch, NoMemory>
        ensures { IfOk result (λ s. (lists : Lists) → length lists ≡ places → IsScratch lists s) }
    {
        let mut weights = Seq::with_room(alloc, places)?;
        let mut stamps = Seq::with_room(alloc, places)?;
        for _ in 0..places {
            weights.add(0)?;
            stamps.add(0)?;
        }
        Ok(Scratch { weights, stamps })
    }
}

fn the_place(labels: &[u32], label: u32) -> usize
    requires rising { IsStrictlyIncreasing labels.now }
    requires there { Contains labels.now label }
    ensures { IsPlace labels.now result label }
{
    match place_of(labels, label) {
        Some(place) => place,
        None => unreachable!(),
    }
}

// the rank of a node; this one where the label is that of none
fn rank_or(labels: &[u32], ranks: &[usize], label: u32, other: usize) -> usize
    requires rising { IsStrictlyIncreasing labels.now }
    requires fit { length ranks.now ≡ length labels.now }
    ensures { (x : ℕ) → IsPlace labels.now x label → result ≡ slice_index ranks.now x }
{
    match place_of(labels, label) {
        Some(place) => ranks[place],
        None => other,
    }
}

// the lowest rank of the taker and of these nodes
fn lowest(labels: &[u32], ranks: &[usize], users: &[u32], taker: usize) -> usize
    requires rising { IsStrictlyIncreasing labels.now }
    requires fit { length ranks.now ≡ length labels.now }
    requires taker { taker < length ranks.now }
    ensures own { result ≤ slice_index ranks.now taker }
    ensures low { IsLow labels.now ranks.now users.now result }
{
    let mut least = ranks[taker];
    for user in users {
        let rank = rank_or(labels, ranks, *user, least);
        least = least.min(rank);
    }
    least
}

fn clear(order: &[usize], first: usize, end: usize, weights: &mut Numbers)
    requires end { end ≤ length order.now }
    requires inside { All (λ t. t < length weights.old) order.now }
    ensures { AreCleared order.now first end weights.old weights.new }
{
    for rank in first..end {
        weights.set(order[rank], 1);
    }
}

// tells which places of ranks from the first on lead to the taker
fn tell(lists: &[Places], ranks: &Ranks, first: usize, taker: usize, weights: &mut Numbers)
    requires inside { AreInside lists.now }
    requires ranked { IsRanked lists.now ranks.now }
    requires taker { taker < length lists.now }
    requires first { first ≤ slice_index ranks.now.ranks taker }
    requires weights { length weights.old ≡ length lists.now }
    ensures { AreTold lists.now ranks.now.ranks first taker weights.new }
{
    let last = ranks.ranks.as_slice()[taker];
    let ranked = ranks.order.len();
    prove!(last < ranked);
    let end = last + 1;
    clear(ranks.order.as_slice(), first, end, weights);
    weights.set(taker, 0);
    sink(lists, ranks, first, end, weights);
}

fn is_below(rank: usize, end: usize, weight: u32) -> bool
    ensures { IsTrue result ↔ (rank < end) × (weight ≡ 0) }
{
    rank < end && weight == 0
}

fn is_early(labels: &[u32], ranks: &[usize], weights: &[u32], taker: usize, user: u32) -> bool
    requires rising { IsStrictlyIncreasing labels.now }
    requires fit { length ranks.now ≡ length labels.now }
    requires weights { length weights.now ≡ length labels.now }
    requires taker { taker < length labels.now }
    ensures { IsTrue result ↔ IsEarly labels.now ranks.now weights.now taker user }
{
    match place_of(labels, user) {
        Some(place) => is_below(ranks[place], ranks[taker], weights[place]),
        None => false,
    }
}

fn is_late(
    labels: &[u32],
    ranks: &[usize],
    weights: &[u32],
    taker: usize,
    node: u32,
    user: u32,
) -> bool
    requires rising { IsStrictlyIncreasing labels.now }
    requires fit { length ranks.now ≡ length labels.now }
    requires weights { length weights.now ≡ length labels.now }
    requires taker { taker < length labels.now }
    ensures { IsTrue result ↔ IsLate labels.now ranks.now weights.now taker node user }
{
    if user == node {
        return false;
    }
    !is_early(labels, ranks, weights, taker, user)
}

fn least_late(
    labels: &[u32],
    ranks: &[usize],
    weights: &[u32],
    users: &[u32],
    taker: usize,
    node: u32,
) -> Option<u32>
    requires rising { IsStrictlyIncreasing labels.now }
    requires fit { length ranks.now ≡ length labels.now }
    requires weights { length weights.now ≡ length labels.now }
    requires taker { taker < length labels.now }
    ensures { IsLeast (IsAmong users.now (IsLate labels.now ranks.now weights.now taker node)) result }
{
    let mut least = None;
    for user in users {
        let wanted = is_late(labels, ranks, weights, taker, node, *user);
        least = keep(wanted, least, *user);
    }
    least
}

// by what leads to the taker at any distance
fn late_by_ranks(
    labels: &[u32],
    lists: &[Places],
    ranks: &Ranks,
    users: &[u32],
    node: u32,
    weights: &mut Numbers,
) -> Option<u32>
    requires rising { IsStrictlyIncreasing labels.now }
    requires inside { AreInside lists.now }
    requires fit { length lists.now ≡ length labels.now }
    requires ranked { IsRanked lists.now ranks.now }
    requires weights { length weights.old ≡ length lists.now }
    requires node { Contains labels.now node }
    ensures late { (g : Graph) → IsInOrder g → IsNetOf g labels.now lists.now → IsLeast (IsAmong users.now (IsAfter g node)) result }
    ensures weights { length weights.new ≡ length lists.now }
{
    let taker = the_place(labels, node);
    let first = lowest(labels, ranks.ranks.as_slice(), users, taker);
    tell(lists, ranks, first, taker, weights);
    least_late(
        labels,
        ranks.ranks.as_slice(),
        weights.as_slice(),
        users,
        taker,
        node,
    )
}

// the places from which links lead straight to the taker bear its stamp
fn stamp(lists: &[Places], taker: usize, mark: usize, stamps: &mut Places)
    requires inside { AreInside lists.now }
    requires taker { taker < length lists.now }
    requires mark { mark ≡ suc taker }
    requires fit { length stamps.old ≡ length lists.now }
    requires right { AreStamps lists.now stamps.old }
    ensures fit { length stamps.new ≡ length lists.now }
    ensures right { AreStamps lists.now stamps.new }
{
    for place in lists[taker].as_slice() {
        stamps.set(*place, mark);
    }
}

fn is_stamped(labels: &[u32], stamps: &[usize], user: u32, mark: usize) -> bool
    requires rising { IsStrictlyIncreasing labels.now }
    requires fit { length stamps.now ≡ length labels.now }
    ensures { IsTrue result → (x : ℕ) × IsPlace labels.now x user × (slice_index stamps.now x ≡ mark) }
{
    match place_of(labels, user) {
        Some(place) => stamps[place] == mark,
        None => false,
    }
}

fn are_stamped(labels: &[u32], stamps: &[usize], users: &[u32], node: u32, mark: usize) -> bool
    requires rising { IsStrictlyIncreasing labels.now }
    requires fit { length stamps.now ≡ length labels.now }
    ensures { IsTrue result → AreStamped labels.now stamps.now users.now node mark }
{
    for user in users {
        if *user != node && !is_stamped(labels, stamps, *user, mark) {
            return false;
        }
    }
    true
}

// whether links lead straight to the node from all other users
fn are_direct(
    labels: &[u32],
    lists: &[Places],
    users: &[u32],
    node: u32,
    stamps: &mut Places,
) -> bool
    requires rising { IsStrictlyIncreasing labels.now }
    requires inside { AreInside lists.now }
    requires fit { length lists.now ≡ length labels.now }
    requires node { Contains labels.now node }
    requires stamps { length stamps.old ≡ length lists.now }
    requires right { AreStamps lists.now stamps.old }
    ensures direct { IsTrue result
        → (g : Graph)
        → IsNetOf g labels.now lists.now
        → IsLeast (IsAmong users.now (IsAfter g node)) None }
    ensures stamps { length stamps.new ≡ length lists.now }
    ensures right { AreStamps lists.now stamps.new }
{
    let taker = the_place(labels, node);
    let mark = taker + 1;
    stamp(lists, taker, mark, stamps);
    are_stamped(labels, stamps.as_slice(), users, node, mark)
}

/// The least label of a user of a port, other than the taker, that does not come before it. Linear in the
/// users and the links to the taker where those lead straight there from all of them, but for a search
/// among the nodes for each user; else in the ranks from the first of the users to the taker and the
/// links into their places.
pub fn late_user(
    labels: &[u32],
    lists: &[Places],
    ranks: &Ranks,
    users: &[u32],
    node: u32,
    scratch: &mut Scratch,
) -> Option<u32>
    requires rising { IsStrictlyIncreasing labels.now }
    requires inside { AreInside lists.now }
    requires fit { length lists.now ≡ length labels.now }
    requires ranked { IsRanked lists.now ranks.now }
    requires scratch { IsScratch lists.now scratch.old }
    requires node { node ≢ 0 → Contains labels.now node }
    ensures late { (g : Graph) → IsInOrder g → IsNetOf g labels.now lists.now → IsLeast (IsAmong users.now (IsAfter g node)) result }
    ensures scratch { IsScratch lists.now scratch.new }
{
    if node == 0 {
        return None;
    }
    if are_direct(labels, lists, users, node, &mut scratch.stamps) {
        return None;
    }
    late_by_ranks(labels, lists, ranks, users, node, &mut scratch.weights)
}
