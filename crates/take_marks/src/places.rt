//! The places of the users of a port.
ghost use Rattle.std.specs.Prelude.{◌≡◌, ℕ, not, nat_lt, filter, length, slice_index, ◌==◌, ◌<◌, All, Contains, MatchOption, IfOk, IsTrue, ◌↔◌};
ghost use Rattle.std.specs.List.Sorted.{IsStrictlyIncreasing};
ghost use Rattle.if1_order.specs.Walks.{AreInside, Leads};
ghost use Rattle.if1_order.specs.Feeders.{IsPlace};
ghost use Rattle.if1_reach.specs.Ranks.{IsRanked};
ghost use Rattle.if1_reach.specs.Searches.{IsWay};
ghost use Rattle.take_marks.specs.Standing.{ArePlaces, IsBlockedBy, IsFree};

use flow_value::{NoMemory, Numbers, Seq};
use if1_order::{Places, place_of};
use if1_reach::{Ranks, way};
use std::alloc::Global;

/// Whether a node stands twice among users.
pub fn is_twice(users: &[u32], node: u32) -> bool
    ensures { result ≡ nat_lt 1 (length (filter (λ l. l == node) users.now)) }
{
    let mut count: usize = 0;
    for user in users {
        if *user == node {
            count += 1;
        }
    }
    count > 1
}

/// The users that are other nodes.
pub fn other_users(alloc: Global, users: &[u32], node: u32) -> Result<Numbers, NoMemory>
    ensures { IfOk result (λ r. r ≡ filter (λ l. not (l == node)) users.now) }
{
    let mut others = Seq::new(alloc);
    for user in users {
        if *user != node {
            others.add(*user)?;
        }
    }
    Ok(others)
}

pub fn the_place(labels: &[u32], label: u32) -> usize
    requires rising { IsStrictlyIncreasing labels.now }
    requires there { Contains labels.now label }
    ensures { IsPlace labels.now result label }
{
    match place_of(labels, label) {
        Some(place) => place,
        None => unreachable!(),
    }
}

/// The places of users that are nodes.
pub fn places_of(alloc: Global, labels: &[u32], users: &[u32]) -> Result<Places, NoMemory>
    requires rising { IsStrictlyIncreasing labels.now }
    requires there { All (Contains labels.now) users.now }
    ensures { IfOk result (ArePlaces labels.now users.now) }
{
    let mut places = Seq::with_room(alloc, users.len())?;
    for user in users {
        places.add(the_place(labels, *user))?;
    }
    Ok(places)
}

/// A way from a place to one of some others, if there is one.
pub fn blocking(
    alloc: Global,
    lists: &[Places],
    ranks: &Ranks,
    places: &[usize],
    taker: usize,
) -> Result<Option<Places>, NoMemory>
    requires inside { AreInside lists.now }
    requires ranked { IsRanked lists.now ranks.now }
    requires taker { taker < length lists.now }
    requires places { All (λ p. p < length lists.now) places.now }
    ensures { IfOk
        result
        (λ r. MatchOption r (IsFree lists.now taker places.now) (IsBlockedBy lists.now taker places.now)) }
{
    for place in places {
        if let Some(found) = way_up(alloc, lists, ranks, taker, *place)? {
            return Ok(Some(found));
        }
    }
    Ok(None)
}

// a way leads to higher ranks alone
fn way_up(
    alloc: Global,
    lists: &[Places],
    ranks: &Ranks,
    from: usize,
    to: usize,
) -> Result<Option<Places>, NoMemory>
    requires inside { AreInside lists.now }
    requires ranked { IsRanked lists.now ranks.now }
    requires from { from < length lists.now }
    requires to { to < length lists.now }
    ensures { IfOk result (λ r. MatchOption r (¬ Leads lists.now from to) (IsWay lists.now from to)) }
{
    let lowest = ranks.ranks.as_slice()[from];
    if ranks.ranks.as_slice()[to] <= lowest {
        return Ok(None);
    }
    way(alloc, lists, from, to)
}
