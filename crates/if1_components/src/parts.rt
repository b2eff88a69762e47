//! The parts of places that lead to each other.
ghost use Rattle.std.specs.Prelude.{◌≡◌, ◌≢◌, ◌<◌, ℕ, length, slice_index, All, IfOk, OnOk};
ghost use Rattle.if1_order.specs.Walks.{AreInside};
ghost use Rattle.if1_components.specs.Backward.{AreTurned};
ghost use Rattle.if1_components.specs.Components.{AreComponents};
ghost use Rattle.if1_components.specs.Parts.{AreSoFar, IsKept};

use crate::backward::turned;
use crate::colors::{clear, spread};
use crate::tour::{toured, zeros};
use flow_value::NoMemory;
use if1_order::Places;
use std::alloc::Global;

// numbers the root and all places that lead to it and to which it leads
fn number(
    alloc: Global,
    lists: &[Places],
    back: &[Places],
    root: usize,
    numbers: &mut Places,
) -> Result<(), NoMemory>
    requires inside { AreInside lists.now }
    requires back { AreTurned lists.now back.now }
    requires root { root < length lists.now }
    requires none { slice_index numbers.old root ≡ 0 }
    requires so_far { AreSoFar lists.now numbers.old }
    ensures so_far { OnOk result (AreSoFar lists.now numbers.new) }
    ensures kept { OnOk result (IsKept numbers.old numbers.new) }
    ensures numbered { OnOk result (slice_index numbers.new root ≢ 0) }
{
    let places = lists.len();
    prove!(root < places);
    let own = root + 2;
    let met = spread(alloc, lists, root, 0, 1, numbers)?;
    spread(alloc, back, root, 1, own, numbers)?;
    clear(met.as_slice(), 1, 0, numbers);
    Ok(())
}

fn enter(
    alloc: Global,
    lists: &[Places],
    back: &[Places],
    root: usize,
    numbers: &mut Places,
) -> Result<(), NoMemory>
    requires inside { AreInside lists.now }
    requires back { AreTurned lists.now back.now }
    requires root { root < length lists.now }
    requires so_far { AreSoFar lists.now numbers.old }
    ensures so_far { OnOk result (AreSoFar lists.now numbers.new) }
    ensures kept { OnOk result (IsKept numbers.old numbers.new) }
    ensures numbered { OnOk result (slice_index numbers.new root ≢ 0) }
{
    if numbers.as_slice()[root] != 0 {
        return Ok(());
    }
    number(alloc, lists, back, root, numbers)
}

// from the last of an order to its first
fn enter_by(
    alloc: Global,
    lists: &[Places],
    back: &[Places],
    order: &[usize],
    numbers: &mut Places,
) -> Result<(), NoMemory>
    requires inside { AreInside lists.now }
    requires back { AreTurned lists.now back.now }
    requires order { All (λ x. x < length lists.now) order.now }
    requires so_far { AreSoFar lists.now numbers.old }
    ensures { OnOk result (AreSoFar lists.now numbers.new) }
{
    let mut at = order.len();
    while at > 0 {
        at -= 1;
        enter(alloc, lists, back, order[at], numbers)?;
    }
    Ok(())
}

fn enter_all(
    alloc: Global,
    lists: &[Places],
    back: &[Places],
    numbers: &mut Places,
) -> Result<(), NoMemory>
    requires inside { AreInside lists.now }
    requires back { AreTurned lists.now back.now }
    requires so_far { AreSoFar lists.now numbers.old }
    ensures { OnOk result (AreComponents lists.now numbers.new) }
{
    for root in 0..lists.len() {
        enter(alloc, lists, back, root, numbers)?;
    }
    Ok(())
}

/// Of each place a number, which two places have in common exactly where they are the same or lead to
/// each other. Linear in the length of the lists: a walk along all links gives the order in which parts
/// are looked for (Sharir's), so that what leads to the first place of a part is that part alone.
pub fn components(alloc: Global, lists: &[Places]) -> Result<Places, NoMemory>
    requires { AreInside lists.now }
    ensures { IfOk result (AreComponents lists.now) }
{
    let back = turned(alloc, lists)?;
    let order = toured(alloc, back.as_slice())?;
    let mut numbers = zeros(alloc, lists.len())?;
    enter_by(
        alloc,
        lists,
        back.as_slice(),
        order.as_slice(),
        &mut numbers,
    )?;
    enter_all(alloc, lists, back.as_slice(), &mut numbers)?;
    Ok(numbers)
}
