//! The ordering edges for the sake of one taker.
ghost use Rattle.std.specs.Prelude.{◌≡◌, ◌≢◌, ◌==◌, ◌||◌, not, nat_lt, ◌<◌, ◌≤◌, ℕ, [], ◌∷◌, ◌++◌, length, slice_index, slice_index_or, slice_set, All, IfOk, OnOk, IsTrue, ◌↔◌, if◌then◌else◌};
ghost use Rattle.if1_order.specs.Walks.{AreInside, Leads, feeders_of};
ghost use Rattle.if1_reach.specs.Ranks.{IsRanked};
ghost use Rattle.take_marks.specs.Standing.{AreWeights, AreCleared, AreWeighed, AreRankedBefore, IsFree, HasEntered};

use flow_value::{NoMemory, Numbers};
use if1_order::Places;
use if1_reach::{Ranks, ranked};
use std::alloc::Global;

/// Whether all these places have ranks before that of the taker.
pub fn are_before(ranks: &Ranks, places: &[usize], taker: usize) -> bool
    requires taker { taker < length ranks.now.ranks }
    requires places { All (λ p. p < length ranks.now.ranks) places.now }
    ensures { IsTrue result ↔ AreRankedBefore ranks.now.ranks taker places.now }
{
    let ranks = ranks.ranks.as_slice();
    for place in places {
        if ranks[*place] >= ranks[taker] {
            return false;
        }
    }
    true
}

pub fn clear(order: &[usize], first: usize, end: usize, weights: &mut Numbers)
    requires end { end ≤ length order.now }
    requires inside { All (λ t. t < length weights.old) order.now }
    ensures { AreCleared order.now first end weights.old weights.new }
{
    for rank in first..end {
        weights.set(order[rank], u32::MAX);
    }
}

pub fn weigh_users(users: &[u32], places: &[usize], weights: &mut Numbers)
    requires fit { length places.now ≡ length users.now }
    requires inside { All (λ t. t < length weights.old) places.now }
    requires alike { (i j : ℕ) → i < length users.now → j < length users.now → slice_index places.now i ≡ slice_index places.now j → slice_index users.now i ≡ slice_index users.now j }
    ensures { AreWeighed users.now places.now weights.old weights.new }
{
    for (index, user) in users.iter().enumerate() {
        weights.set(places[index], *user);
    }
}

/// Ranks in which all these places come before the taker, which leads to none of them.
pub fn reordered(
    alloc: Global,
    lists: &mut Vec<Places>,
    places: &[usize],
    taker: usize,
) -> Result<Ranks, NoMemory>
    requires inside { AreInside lists.old.items }
    requires taker { taker < length lists.old.items }
    requires places { All (λ p. p < length lists.old.items) places.now }
    requires others { All (λ p. p ≢ taker) places.now }
    requires free { IsFree lists.old.items taker places.now }
    requires acyclic { (s : ℕ) → ¬ Leads lists.old.items s s }
    ensures same { OnOk result (lists.new.items ≡ lists.old.items) }
    ensures ranked { IfOk result (λ r. IsRanked lists.old.items r × AreRankedBefore r.ranks taker places.now) }
{
    let before = lists[taker].len();
    lists[taker].extend(places)?;
    let found = ranked(alloc, lists.as_slice())?;
    lists[taker].truncate(before);
    match found {
        Some(ranks) => Ok(ranks),
        None => unreachable!(),
    }
}

// the user is another one than the last, and leads to none of a lower weight
fn is_wanted(user: u32, last: u32, weight: u32) -> bool
    ensures { result ≡ not ((user == last) || nat_lt weight user) }
{
    if user == last {
        return false;
    }
    weight >= user
}

fn enter_if(
    wanted: bool,
    user: u32,
    place: usize,
    taker: usize,
    lists: &mut Vec<Places>,
    befores: &mut Vec<Numbers>,
) -> Result<(), NoMemory>
    requires taker { taker < length lists.old.items }
    requires fit { length befores.old.items ≡ length lists.old.items }
    ensures lists { OnOk
        result
        (lists.new.items ≡ (if wanted then slice_set lists.old.items taker (feeders_of lists.old.items taker ++ place ∷ []) else lists.old.items)) }
    ensures befores { OnOk
        result
        (befores.new.items ≡ (if wanted then slice_set befores.old.items taker (slice_index_or befores.old.items taker [] ++ user ∷ []) else befores.old.items)) }
{
    if !wanted {
        return Ok(());
    }
    lists[taker].add(place)?;
    befores[taker].add(user)?;
    Ok(())
}

/// Enters an ordering edge to the taker from each user that is not the one before it and leads to
/// nothing of a lower weight.
pub fn enter(
    users: &[u32],
    places: &[usize],
    taker: usize,
    weights: &[u32],
    lists: &mut Vec<Places>,
    befores: &mut Vec<Numbers>,
) -> Result<(), NoMemory>
    requires fit { length places.now ≡ length users.now }
    requires inside { All (λ p. p < length weights.now) places.now }
    requires taker { taker < length lists.old.items }
    requires befores { length befores.old.items ≡ length lists.old.items }
    ensures { OnOk
        result
        (HasEntered users.now places.now taker weights.now (length users.now) lists.old.items befores.old.items lists.new.items befores.new.items) }
{
    let mut last = 0;
    for (index, user) in users.iter().enumerate() {
        let place = places[index];
        let wanted = is_wanted(*user, last, weights[place]);
        enter_if(wanted, *user, place, taker, lists, befores)?;
        last = *user;
    }
    Ok(())
}
