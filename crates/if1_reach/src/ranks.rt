//! An order of places along links, and the rank of each place in it.
ghost use Rattle.std.specs.Prelude.{◌≡◌, ◌<◌, ℕ, length, replicate, All, Contains, MatchOption, IfOk};
ghost use Rattle.if1_graph.specs.Formed.{IsOnce};
ghost use Rattle.if1_order.specs.Walks.{AreInside, Leads};
ghost use Rattle.if1_reach.specs.Ranks.{AreRanks, IsRanked};

use flow_value::{NoMemory, Seq};
use if1_order::{Places, Sorted, sort};
use std::alloc::Global;

/// An order of places, and the rank of each place in it.
#[derive(Drop)]
pub struct Ranks {
    /// The places in order.
    pub order: Places,
    /// The rank of each place.
    pub ranks: Places,
}

fn no_ranks(alloc: Global, places: usize) -> Result<Places, NoMemory>
    ensures { IfOk result (λ r. r ≡ replicate places 0) }
{
    let mut ranks = Seq::with_room(alloc, places)?;
    for _ in 0..places {
        ranks.add(0)?;
    }
    Ok(ranks)
}

fn ranks_in(alloc: Global, order: &[usize], places: usize) -> Result<Places, NoMemory>
    requires inside { All (λ t. t < places) order.now }
    requires once { IsOnce order.now }
    ensures { IfOk result (λ r. (length r ≡ places) × AreRanks order.now r) }
{
    let mut ranks = no_ranks(alloc, places)?;
    for (rank, place) in order.iter().enumerate() {
        ranks.set(*place, rank);
    }
    Ok(ranks)
}

/// An order of the places in which links lead to higher ranks alone; none where a place leads to itself.
/// Linear in the length of the lists.
pub fn ranked(alloc: Global, lists: &[Places]) -> Result<Option<Ranks>, NoMemory>
    requires { AreInside lists.now }
    ensures { IfOk
        result
        (λ r. MatchOption r ((s : ℕ) × (s < length lists.now) × Leads lists.now s s) (IsRanked lists.now)) }
{
    match sort(alloc, lists)? {
        Sorted::InOrder(order) => {
            let ranks = ranks_in(alloc, order.as_slice(), lists.len())?;
            Ok(Some(Ranks { order, ranks }))
        }
        Sorted::OnCircle(_) => Ok(None),
    }
}
