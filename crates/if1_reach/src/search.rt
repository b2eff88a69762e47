//! A search backwards along edges, with what it has met in a list.
ghost use Rattle.std.specs.Prelude.{◌≡◌, ◌+◌, ◌-◌, ◌<◌, ◌≤◌, [], ◌∷◌, ◌++◌, length, replicate, slice_index, MatchOption, IfOk, OnOk, false, Contains};
ghost use Rattle.if1_order.specs.Walks.{AreInside, Leads, feeders_of};
ghost use Rattle.if1_reach.specs.Searches.{IsSearch, Adds, HasMet, HaveMet, Follows, IsWay, IsWayOn, at_of};

use flow_value::{NoMemory, Seq};
use if1_order::Places;
use std::alloc::Global;

/// A place that was met on the way back from the end.
#[derive(Clone, Copy)]
pub struct Met {
    /// The place.
    pub place: usize,
    /// How it leads on: 0 straight to the end, k + 1 by the k-th place that was met.
    pub on: usize,
}

/// What a search has met, in order, and which places these are.
#[derive(Drop)]
pub struct Search {
    /// The places that were met, in order.
    pub met: Seq<Met>,
    /// Of each place, whether it was met.
    pub seen: Seq<bool>,
}

fn unseen(alloc: Global, places: usize) -> Result<Seq<bool>, NoMemory>
    ensures { IfOk result (λ m. m ≡ replicate places false) }
{
    let mut seen = Seq::with_room(alloc, places)?;
    for _ in 0..places {
        seen.add(false)?;
    }
    Ok(seen)
}

fn begun(alloc: Global, lists: &[Places], to: usize) -> Result<Search, NoMemory>
    ensures { IfOk result (λ s. IsSearch lists.now to s × (s.met ≡ [])) }
{
    Ok(Search {
        met: Seq::new(alloc),
        seen: unseen(alloc, lists.len())?,
    })
}

// a place that leads on to one that was met
fn meet(
    lists: &[Places],
    to: usize,
    search: &mut Search,
    place: usize,
    on: usize,
) -> Result<(), NoMemory>
    requires search { IsSearch lists.now to search.old }
    requires place { place < length lists.now }
    requires follows { Follows lists.now to search.old.met place on }
    ensures { OnOk result (IsSearch lists.now to search.new × Adds search.old search.new × HasMet search.new place) }
{
    if search.seen.as_slice()[place] {
        return Ok(());
    }
    search.met.add(Met { place, on })?;
    search.seen.set(place, true);
    Ok(())
}

// all that lead straight to a place that was met
fn meet_all(
    lists: &[Places],
    to: usize,
    search: &mut Search,
    at: usize,
    on: usize,
) -> Result<(), NoMemory>
    requires search { IsSearch lists.now to search.old }
    requires inside { AreInside lists.now }
    requires at { at < length lists.now }
    requires on { on ≤ length search.old.met }
    requires is { at ≡ at_of to search.old.met on }
    ensures { OnOk result (IsSearch lists.now to search.new × Adds search.old search.new × HaveMet lists.now search.new at) }
{
    for feeder in lists[at].as_slice() {
        meet(lists, to, search, *feeder, on)?;
    }
    Ok(())
}

// the way from a place that leads on by this number
fn way_on(
    alloc: Global,
    lists: &[Places],
    to: usize,
    search: &Search,
    from: usize,
    on: usize,
) -> Result<Places, NoMemory>
    requires search { IsSearch lists.now to search.now }
    requires follows { Follows lists.now to search.now.met from on }
    ensures { IfOk result (IsWay lists.now from to) }
{
    let _ = lists;
    let mut way = Seq::new(alloc);
    way.add(from)?;
    let mut on = on;
    while on > 0 {
        let met = search.met.as_slice()[on - 1];
        way.add(met.place)?;
        on = met.on;
    }
    way.add(to)?;
    Ok(way)
}

/// A way along edges from one place to another, of one edge at least; none exactly where there is none.
/// Linear in the length of the lists.
pub fn way(
    alloc: Global,
    lists: &[Places],
    from: usize,
    to: usize,
) -> Result<Option<Places>, NoMemory>
    requires inside { AreInside lists.now }
    requires to { to < length lists.now }
    ensures { IfOk result (λ r. MatchOption r (¬ Leads lists.now from to) (IsWay lists.now from to)) }
{
    let mut search = begun(alloc, lists, to)?;
    meet_all(lists, to, &mut search, to, 0)?;
    let mut at = 0;
    while at < search.met.len() {
        let met = search.met.as_slice()[at];
        if met.place == from {
            let found = way_on(alloc, lists, to, &search, from, met.on)?;
            return Ok(Some(found));
        }
        meet_all(lists, to, &mut search, met.place, at + 1)?;
        at += 1;
    }
    Ok(None)
}
