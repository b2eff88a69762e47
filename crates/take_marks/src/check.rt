//! Whether a list of places is an order along links.
ghost use Rattle.std.specs.Prelude.{◌≡◌, ◌<◌, ℕ, length, slice_index, Contains, IsTrue, IfOk, IfSome};
ghost use Rattle.if1_order.specs.Walks.{feeders_of};
ghost use Rattle.if1_reach.specs.Ranks.{IsRanked};

use flow_value::{NoMemory, Seq};
use if1_order::Places;
use if1_reach::Ranks;
use std::alloc::Global;

fn zeros(alloc: Global, places: usize) -> Result<Places, NoMemory> {
    let mut ranks = Seq::with_room(alloc, places)?;
    for _ in 0..places {
        ranks.add(0)?;
    }
    Ok(ranks)
}

// the rank of each place; another one where the places are no order
fn ranks_by(alloc: Global, order: &[usize], places: usize) -> Result<Places, NoMemory> {
    let mut ranks = zeros(alloc, places)?;
    for (rank, place) in order.iter().enumerate() {
        if *place < ranks.len() {
            ranks.set(*place, rank);
        }
    }
    Ok(ranks)
}

fn do_stand(order: &[usize], ranks: &[usize]) -> bool
    ensures { IsTrue result → (t : ℕ) → t < length ranks.now → (slice_index ranks.now t < length order.now) × (slice_index order.now (slice_index ranks.now t) ≡ t) }
{
    for (place, rank) in ranks.iter().enumerate() {
        if *rank >= order.len() {
            return false;
        }
        if order[*rank] != place {
            return false;
        }
    }
    true
}

fn are_ranked(order: &[usize], ranks: &[usize]) -> bool
    ensures { IsTrue result → (k : ℕ) → k < length order.now → (slice_index order.now k < length ranks.now) × (slice_index ranks.now (slice_index order.now k) ≡ k) }
{
    for (rank, place) in order.iter().enumerate() {
        if *place >= ranks.len() {
            return false;
        }
        if ranks[*place] != rank {
            return false;
        }
    }
    true
}

fn are_lower(feeders: &[usize], ranks: &[usize], rank: usize) -> bool
    ensures { IsTrue result → (s : ℕ) → Contains feeders.now s → slice_index ranks.now s < rank }
{
    for feeder in feeders {
        if *feeder >= ranks.len() {
            return false;
        }
        if ranks[*feeder] >= rank {
            return false;
        }
    }
    true
}

fn do_rise(lists: &[Places], ranks: &[usize]) -> bool
    requires { length ranks.now ≡ length lists.now }
    ensures { IsTrue result → (s t : ℕ) → t < length lists.now → Contains (feeders_of lists.now t) s → slice_index ranks.now s < slice_index ranks.now t }
{
    for (place, rank) in ranks.iter().enumerate() {
        if !are_lower(lists[place].as_slice(), ranks, *rank) {
            return false;
        }
    }
    true
}

/// These places in this order with their ranks, if that is an order along links. Linear in the length of
/// the lists.
pub fn checked(alloc: Global, lists: &[Places], order: Places) -> Result<Option<Ranks>, NoMemory>
    ensures { IfOk result (λ r. IfSome r (IsRanked lists.now)) }
{
    let ranks = ranks_by(alloc, order.as_slice(), lists.len())?;
    if ranks.len() != lists.len() {
        return Ok(None);
    }
    if !do_stand(order.as_slice(), ranks.as_slice()) {
        return Ok(None);
    }
    if !are_ranked(order.as_slice(), ranks.as_slice()) {
        return Ok(None);
    }
    if !do_rise(lists, ranks.as_slice()) {
        return Ok(None);
    }
    Ok(Some(Ranks { order, ranks }))
}
