//! Whether an edge that may take does.
ghost use Rattle.std.specs.Prelude.{◌≡◌, ◌≢◌, ◌<◌, ℕ, [], ◌∷◌, length, All, Contains, IfOk, OnOk, IsTrue, ◌↔◌};
ghost use Rattle.std.specs.List.Sorted.{IsStrictlyIncreasing};
ghost use Rattle.if1_order.specs.Walks.{AreInside, Leads};
ghost use Rattle.if1_order.specs.Feeders.{IsPlace};
ghost use Rattle.if1_reach.specs.Ranks.{IsRanked};
ghost use Rattle.take_marks.specs.Standing.{AreRankedBefore, IsFree, ArePlaces};
ghost use Rattle.take_marks.specs.Judged.{IsJudged, AreThere, IsTried};

use crate::order::{are_before, reordered};
use crate::orders::order_users;
use crate::places::{blocking, is_twice, other_users, places_of, the_place};
use crate::why::Why;
use flow_value::{NoMemory, Numbers, Seq};
use if1_order::{Places, labelled};
use if1_reach::{Path, Ranks};
use std::alloc::Global;

// ranks in which all these places come before the taker
fn put_before(
    alloc: Global,
    lists: &mut Vec<Places>,
    ranks: &mut Ranks,
    places: &[usize],
    taker: usize,
) -> Result<(), NoMemory>
    requires inside { AreInside lists.old.items }
    requires ranked { IsRanked lists.old.items ranks.old }
    requires taker { taker < length lists.old.items }
    requires places { All (λ p. p < length lists.old.items) places.now }
    requires others { All (λ p. p ≢ taker) places.now }
    requires free { IsFree lists.old.items taker places.now }
    requires acyclic { (s : ℕ) → ¬ Leads lists.old.items s s }
    ensures same { OnOk result (lists.new.items ≡ lists.old.items) }
    ensures ranked { OnOk result (IsRanked lists.old.items ranks.new) }
    ensures before { OnOk result (AreRankedBefore ranks.new.ranks taker places.now) }
{
    if are_before(ranks, places, taker) {
        return Ok(());
    }
    *ranks = reordered(alloc, lists, places, taker)?;
    Ok(())
}

fn has_boundary(users: &[u32]) -> bool
    ensures { IsTrue result ↔ Contains users.now 0 }
{
    users.contains(&0)
}

fn to_boundary(alloc: Global, node: u32) -> Result<Path, NoMemory>
    ensures { IfOk result (λ p. p ≡ node ∷ 0 ∷ []) }
{
    let mut path = Seq::new(alloc);
    path.add(node)?;
    path.add(0)?;
    Ok(path)
}

// the other users are nodes
fn try_node(
    alloc: Global,
    labels: &[u32],
    others: &[u32],
    node: u32,
    lists: &mut Vec<Places>,
    ranks: &mut Ranks,
    weights: &mut Numbers,
    befores: &mut Vec<Numbers>,
) -> Result<Why, NoMemory>
    requires rising { IsStrictlyIncreasing labels.now }
    requires inside { AreInside lists.old.items }
    requires fit { length lists.old.items ≡ length labels.now }
    requires ranked { IsRanked lists.old.items ranks.old }
    requires weights { length weights.old ≡ length lists.old.items }
    requires befores { length befores.old.items ≡ length lists.old.items }
    requires node { Contains labels.now node }
    requires others { All (Contains labels.now) others.now }
    requires another { All (λ l. l ≢ node) others.now }
    ensures inside { OnOk result (AreInside lists.new.items) }
    ensures fit { OnOk result (length lists.new.items ≡ length lists.old.items) }
    ensures weights { OnOk result (length weights.new ≡ length lists.new.items) }
    ensures befores { OnOk result (length befores.new.items ≡ length lists.new.items) }
    ensures ranked { OnOk result (IsRanked lists.new.items ranks.new) }
    ensures tried { IfOk
        result
        (IsTried labels.now others.now node lists.old.items befores.old.items lists.new.items befores.new.items) }
{
    let taker = the_place(labels, node);
    let places = places_of(alloc, labels, others)?;
    let found = blocking(alloc, lists.as_slice(), ranks, places.as_slice(), taker)?;
    if let Some(way) = found {
        let path = labelled(alloc, labels, way.as_slice())?;
        return Ok(Why::Blocked(path));
    }
    put_before(alloc, lists, ranks, places.as_slice(), taker)?;
    order_users(
        others,
        places.as_slice(),
        taker,
        ranks,
        weights,
        lists,
        befores,
    )?;
    Ok(Why::Taken)
}

/// Whether an edge that may take does, which leads to this node from a port with these users; the
/// ordering edges for its sake are entered.
pub fn judge(
    alloc: Global,
    labels: &[u32],
    users: &[u32],
    node: u32,
    lists: &mut Vec<Places>,
    ranks: &mut Ranks,
    weights: &mut Numbers,
    befores: &mut Vec<Numbers>,
) -> Result<Why, NoMemory>
    requires rising { IsStrictlyIncreasing labels.now }
    requires inside { AreInside lists.old.items }
    requires fit { length lists.old.items ≡ length labels.now }
    requires ranked { IsRanked lists.old.items ranks.old }
    requires weights { length weights.old ≡ length lists.old.items }
    requires befores { length befores.old.items ≡ length lists.old.items }
    requires node { node ≢ 0 → Contains labels.now node }
    requires users { AreThere labels.now users.now }
    ensures inside { OnOk result (AreInside lists.new.items) }
    ensures fit { OnOk result (length lists.new.items ≡ length lists.old.items) }
    ensures weights { OnOk result (length weights.new ≡ length lists.new.items) }
    ensures befores { OnOk result (length befores.new.items ≡ length lists.new.items) }
    ensures ranked { OnOk result (IsRanked lists.new.items ranks.new) }
    ensures judged { IfOk
        result
        (IsJudged labels.now users.now node lists.old.items befores.old.items lists.new.items befores.new.items) }
{
    if is_twice(users, node) {
        return Ok(Why::Twice);
    }
    if node == 0 {
        return Ok(Why::Taken);
    }
    let others = other_users(alloc, users, node)?;
    if has_boundary(others.as_slice()) {
        let path = to_boundary(alloc, node)?;
        return Ok(Why::Blocked(path));
    }
    try_node(
        alloc,
        labels,
        others.as_slice(),
        node,
        lists,
        ranks,
        weights,
        befores,
    )
}
