//! An order of places by a walk along links, in which parts are found fast. Nothing is said of it but
//! that its places are there.
ghost use Rattle.std.specs.Prelude.{◌≡◌, ◌<◌, length, replicate, All, IfOk, OnOk, IfSome, false};
ghost use Rattle.if1_order.specs.Walks.{AreInside};
ghost use Rattle.if1_components.specs.Tours.{IsTour};

use flow_value::{NoMemory, Seq};
use if1_order::Places;
use std::alloc::Global;

/// How far a walk is.
#[derive(Drop)]
pub struct Tour {
    /// Which places were met.
    pub met: Seq<bool>,
    /// How many of each place's list were looked at.
    pub next: Places,
    /// The places on the way from where the walk began.
    pub path: Places,
    /// The places that were left, in this order.
    pub order: Places,
}

/// Nothing, for so many places.
pub fn zeros(alloc: Global, places: usize) -> Result<Places, NoMemory>
    ensures { IfOk result (λ m. m ≡ replicate places 0) }
{
    let mut zeros = Seq::with_room(alloc, places)?;
    for _ in 0..places {
        zeros.add(0)?;
    }
    Ok(zeros)
}

fn unmet(alloc: Global, places: usize) -> Result<Seq<bool>, NoMemory>
    ensures { IfOk result (λ m. m ≡ replicate places false) }
{
    let mut met = Seq::with_room(alloc, places)?;
    for _ in 0..places {
        met.add(false)?;
    }
    Ok(met)
}

fn begun(alloc: Global, places: usize) -> Result<Tour, NoMemory>
    ensures { IfOk result (IsTour places) }
{
    Ok(Tour {
        met: unmet(alloc, places)?,
        next: zeros(alloc, places)?,
        path: Seq::new(alloc),
        order: Seq::with_room(alloc, places)?,
    })
}

fn go_to(places: usize, tour: &mut Tour, place: usize) -> Result<(), NoMemory>
    requires tour { IsTour places tour.old }
    requires place { place < places }
    ensures { OnOk result (IsTour places tour.new) }
{
    let _ = places;
    if tour.met.as_slice()[place] {
        return Ok(());
    }
    tour.met.set(place, true);
    tour.path.add(place)?;
    Ok(())
}

// the last place of the way, which is then shorter
fn popped(places: usize, tour: &mut Tour) -> Option<usize>
    requires { IsTour places tour.old }
    ensures tour { IsTour places tour.new }
    ensures there { IfSome result (λ x. x < places) }
{
    let _ = places;
    tour.path.pop()
}

// from a place on the way to another, if that was not met
fn go_on(
    places: usize,
    tour: &mut Tour,
    place: usize,
    count: usize,
    other: usize,
) -> Result<bool, NoMemory>
    requires tour { IsTour places tour.old }
    requires place { place < places }
    requires other { other < places }
    ensures { OnOk result (IsTour places tour.new) }
{
    tour.next.set(place, count);
    tour.path.add(place)?;
    go_to(places, tour, other)?;
    Ok(true)
}

// one step on the way, or back; false where it is at an end
fn step(lists: &[Places], tour: &mut Tour) -> Result<bool, NoMemory>
    requires inside { AreInside lists.now }
    requires tour { IsTour (length lists.now) tour.old }
    ensures { OnOk result (IsTour (length lists.now) tour.new) }
{
    let Some(place) = popped(lists.len(), tour) else {
        return Ok(false);
    };
    let next = tour.next.as_slice()[place];
    let list = lists[place].as_slice();
    if next < list.len() {
        return go_on(lists.len(), tour, place, next + 1, list[next]);
    }
    tour.order.add(place)?;
    Ok(true)
}

fn visit(lists: &[Places], tour: &mut Tour, root: usize) -> Result<(), NoMemory>
    requires inside { AreInside lists.now }
    requires tour { IsTour (length lists.now) tour.old }
    requires root { root < length lists.now }
    ensures { OnOk result (IsTour (length lists.now) tour.new) }
{
    go_to(lists.len(), tour, root)?;
    for _ in 0..u64::MAX {
        if !step(lists, tour)? {
            return Ok(());
        }
    }
    Ok(())
}

/// The places in the order in which a walk along all links leaves them. Linear in the length of the
/// lists.
pub fn toured(alloc: Global, lists: &[Places]) -> Result<Places, NoMemory>
    requires { AreInside lists.now }
    ensures { IfOk result (All (λ x. x < length lists.now)) }
{
    let mut tour = begun(alloc, lists.len())?;
    for root in 0..lists.len() {
        visit(lists, &mut tour, root)?;
    }
    Ok(tour.order)
}
