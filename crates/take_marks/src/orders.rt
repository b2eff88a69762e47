//! All ordering edges to one taker.
ghost use Rattle.std.specs.Prelude.{◌≡◌, ◌≢◌, ◌<◌, ◌≤◌, ℕ, length, slice_index, All, OnOk};
ghost use Rattle.if1_order.specs.Walks.{Lists, AreInside};
ghost use Rattle.if1_reach.specs.Ranks.{IsRanked};
ghost use Rattle.take_marks.specs.Standing.{AreWeights, AreRankedBefore};
ghost use Rattle.take_marks.specs.Ordered.{AreOrdered};

use crate::order::{clear, enter, weigh_users};
use flow_value::{NoMemory, Numbers};
use if1_order::Places;
use if1_reach::{Ranks, sink};

// the lowest rank of these places and the taker
fn lowest(ranks: &[usize], places: &[usize], taker: usize) -> usize
    requires taker { taker < length ranks.now }
    requires places { All (λ p. p < length ranks.now) places.now }
    ensures own { result ≤ slice_index ranks.now taker }
    ensures low { All (λ p. result ≤ slice_index ranks.now p) places.now }
{
    let mut least = ranks[taker];
    for place in places {
        least = least.min(ranks[*place]);
    }
    least
}

fn weigh(
    ranks: &Ranks,
    first: usize,
    end: usize,
    users: &[u32],
    places: &[usize],
    taker: usize,
    weights: &mut Numbers,
)
    requires end { end ≤ length ranks.now.order }
    requires order { All (λ t. t < length weights.old) ranks.now.order }
    requires fit { length places.now ≡ length users.now }
    requires inside { All (λ t. t < length weights.old) places.now }
    requires taker { taker < length weights.old }
    requires others { (k : ℕ) → k < length users.now → slice_index places.now k ≢ taker }
    requires alike { (i j : ℕ) → i < length users.now → j < length users.now → slice_index places.now i ≡ slice_index places.now j → slice_index users.now i ≡ slice_index users.now j }
    ensures fit { length weights.new ≡ length weights.old }
    ensures are { (lists : Lists) → IsRanked lists ranks.now → length weights.old ≡ length lists → AreWeights lists ranks.now.ranks first end taker users.now places.now weights.new }
{
    clear(ranks.order.as_slice(), first, end, weights);
    weigh_users(users, places, weights);
    weights.set(taker, 0);
}

/// Enters the ordering edges to a taker that come with its mark, from other users that all have ranks
/// before it. Linear in the ranks from the first of them to the taker and the links into their places.
pub fn order_users(
    users: &[u32],
    places: &[usize],
    taker: usize,
    ranks: &Ranks,
    weights: &mut Numbers,
    lists: &mut Vec<Places>,
    befores: &mut Vec<Numbers>,
) -> Result<(), NoMemory>
    requires inside { AreInside lists.old.items }
    requires ranked { IsRanked lists.old.items ranks.now }
    requires weights { length weights.old ≡ length lists.old.items }
    requires befores { length befores.old.items ≡ length lists.old.items }
    requires taker { taker < length lists.old.items }
    requires fit { length places.now ≡ length users.now }
    requires places { All (λ p. p < length lists.old.items) places.now }
    requires before { AreRankedBefore ranks.now.ranks taker places.now }
    requires alike { (i j : ℕ) → i < length users.now → j < length users.now → slice_index places.now i ≡ slice_index places.now j → slice_index users.now i ≡ slice_index users.now j }
    ensures inside { OnOk result (AreInside lists.new.items) }
    ensures fit { OnOk result (length lists.new.items ≡ length lists.old.items) }
    ensures weights { OnOk result (length weights.new ≡ length lists.new.items) }
    ensures befores { OnOk result (length befores.new.items ≡ length lists.new.items) }
    ensures ranked { OnOk result (IsRanked lists.new.items ranks.now) }
    ensures ordered { OnOk
        result
        (AreOrdered users.now places.now taker lists.old.items befores.old.items lists.new.items befores.new.items) }
{
    let first = lowest(ranks.ranks.as_slice(), places, taker);
    let last = ranks.ranks.as_slice()[taker];
    let ranked = ranks.order.len();
    prove!(last < ranked);
    let end = last + 1;
    weigh(ranks, first, end, users, places, taker, weights);
    sink(lists.as_slice(), ranks, first, end, weights);
    enter(users, places, taker, weights.as_slice(), lists, befores)
}
