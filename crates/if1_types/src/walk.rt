//! The numbers of the types of a table, in one walk in which parts come first.
ghost use Rattle.std.specs.Prelude.{◌≡◌, ◌≢◌, ◌≤◌, ◌<◌, ◌+◌, ◌*◌, ◌^◌, List, ℕ, Some, true, false, suc, length, map, replicate, slice_get, IfOk, OnOk};
ghost use Rattle.std.specs.List.Sorted.{IsStrictlyIncreasing};
ghost use Rattle.if1_types.specs.Shapes.{trees_in, IsLater};
ghost use Rattle.if1_types.specs.Tables.{labels_in};
ghost use Rattle.if1_types.specs.Finds.{part_at, unknown_in, unmet_in, AreRight, IsSettled, AreFound};
ghost use Rattle.if1_types.specs.Steps.{Grows};

use crate::found::{Found, Part, nothing, part_at, place_of};
use crate::kind::Kind;
use crate::shapes::Shapes;
use crate::step::part_by;
use crate::table::labels_of;
use flow_value::{NoMemory, Seq, item_at};
use if1_graph::TypeEntry;
use std::alloc::Global;

fn no_parts(alloc: Global, places: usize) -> Result<Seq<Part>, NoMemory>
    ensures { IfOk result (λ ps. ps ≡ replicate places (record { number = 0; depth = 0 })) }
{
    let mut parts = Seq::with_room(alloc, places)?;
    for _ in 0..places {
        parts.add(nothing())?;
    }
    Ok(parts)
}

/// Nothing is known of any line.
fn none_found(shapes: &mut Shapes, types: &[TypeEntry]) -> Result<Found, NoMemory>
    requires room { suc (length (trees_in shapes.old)) < 2 ^ 32 }
    ensures right { IfOk result (AreRight (trees_in shapes.new) types.now) }
    ensures few { IfOk result (λ found. length (trees_in shapes.new) + unknown_in found.parts ≤ suc (length (trees_in shapes.old) + length types.now)) }
{
    let labels = labels_of(shapes.allocator(), types)?;
    let parts = no_parts(shapes.allocator(), types.len())?;
    let end = shapes.number(Kind::End, 0, 0)?;
    Ok(Found { labels, end, parts })
}

/// Numbers the line at a place, if it has no number and all its parts have; says whether it did.
fn number_line(
    shapes: &mut Shapes,
    types: &[TypeEntry],
    found: &mut Found,
    place: usize,
) -> Result<bool, NoMemory>
    requires rising { IsStrictlyIncreasing (map (λ e. e.label) types.now) }
    requires right { AreRight (trees_in shapes.old) types.now found.old }
    requires room { length (trees_in shapes.old) + unknown_in found.old.parts < 2 ^ 32 }
    ensures grows { IfOk result (λ _. Grows types.now shapes.old shapes.new found.old found.new) }
    ensures more { IfOk result (λ more. more ≡ true → unknown_in found.new.parts < unknown_in found.old.parts) }
    ensures same { IfOk result (λ more. more ≡ false → (shapes.new ≡ shapes.old) × (found.new ≡ found.old)) }
    ensures settled { IfOk result (λ more. more ≡ false → IsSettled (trees_in shapes.new) types.now found.new place) }
{
    let Some(entry) = item_at(types, place) else {
        return Ok(false);
    };
    if is_known(found, place) {
        return Ok(false);
    }
    let part = part_by(shapes, types, found, entry)?;
    if part.number == 0 {
        return Ok(false);
    }
    found.parts.set(place, part);
    Ok(true)
}

fn is_known(found: &Found, place: usize) -> bool
    ensures known { result ≡ true → (part_at found.now.parts place).number ≢ 0 }
    ensures unknown { result ≡ false → (part_at found.now.parts place).number ≡ 0 }
{
    part_at(found.parts.as_slice(), place).number != 0
}

/// All places, the first one last.
fn all_places(alloc: Global, places: usize) -> Result<Seq<usize>, NoMemory>
    ensures { IfOk result (λ ps. length ps ≡ places) }
{
    let mut waiting = Seq::with_room(alloc, places)?;
    let mut left = places;
    while left > 0 {
        left -= 1;
        waiting.add(left)?;
    }
    Ok(waiting)
}

fn none_met(alloc: Global, places: usize) -> Result<Seq<bool>, NoMemory>
    ensures { IfOk result (λ met. met ≡ replicate places false) }
{
    let mut met = Seq::with_room(alloc, places)?;
    for _ in 0..places {
        met.add(false)?;
    }
    Ok(met)
}

/// Whether a place is there and was not met.
fn is_fresh(met: &[bool], place: usize) -> bool
    ensures { result ≡ true → slice_get met.now place ≡ Some false }
{
    match met.get(place) {
        Some(met) => !*met,
        None => false,
    }
}

fn open_label(found: &Found, waiting: &mut Seq<usize>, label: u32) -> Result<(), NoMemory>
    requires { IsStrictlyIncreasing found.now.labels }
    ensures { OnOk result (length waiting.new ≤ suc (length waiting.old)) }
{
    match place_of(found.labels.as_slice(), label) {
        Some(place) => waiting.add(place),
        None => Ok(()),
    }
}

/// Lets a line wait until its parts were looked at.
fn open_line(
    types: &[TypeEntry],
    found: &Found,
    waiting: &mut Seq<usize>,
    place: usize,
) -> Result<(), NoMemory>
    requires { IsStrictlyIncreasing found.now.labels }
    ensures { OnOk result (length waiting.new ≤ 3 + length waiting.old) }
{
    let Some(entry) = item_at(types, place) else {
        return Ok(());
    };
    waiting.add(place)?;
    open_label(found, waiting, entry.first)?;
    open_label(found, waiting, entry.second)?;
    Ok(())
}

/// Lets a line that has no number wait for its parts, but only once.
fn wait_for_parts(
    types: &[TypeEntry],
    found: &Found,
    met: &mut Seq<bool>,
    waiting: &mut Seq<usize>,
    place: usize,
) -> Result<(), NoMemory>
    requires { IsStrictlyIncreasing found.now.labels }
    ensures { OnOk result (length waiting.new + 4 * unmet_in met.new ≤ length waiting.old + 4 * unmet_in met.old) }
{
    if is_known(found, place) {
        return Ok(());
    }
    if is_fresh(met.as_slice(), place) {
        met.set(place, true);
        open_line(types, found, waiting, place)?;
        Ok(())
    } else {
        Ok(())
    }
}

/// Numbers the lines: each when it is met, where its parts have numbers, and else when its parts were
/// looked at, with the lines that wait in a list. Near linear.
fn walk(shapes: &mut Shapes, types: &[TypeEntry], found: &mut Found) -> Result<(), NoMemory>
    requires rising { IsStrictlyIncreasing (map (λ e. e.label) types.now) }
    requires right { AreRight (trees_in shapes.old) types.now found.old }
    requires room { length (trees_in shapes.old) + unknown_in found.old.parts < 2 ^ 32 }
    ensures { OnOk result (Grows types.now shapes.old shapes.new found.old found.new) }
{
    let mut met = none_met(shapes.allocator(), types.len())?;
    let mut waiting = all_places(shapes.allocator(), types.len())?;
    while let Some(place) = waiting.pop() {
        number_line(shapes, types, found, place)?;
        wait_for_parts(types, found, &mut met, &mut waiting, place)?;
    }
    Ok(())
}

/// Numbers the first line that has no number and whose parts all have, if there is one.
fn one_more(shapes: &mut Shapes, types: &[TypeEntry], found: &mut Found) -> Result<bool, NoMemory>
    requires rising { IsStrictlyIncreasing (map (λ e. e.label) types.now) }
    requires right { AreRight (trees_in shapes.old) types.now found.old }
    requires room { length (trees_in shapes.old) + unknown_in found.old.parts < 2 ^ 32 }
    ensures grows { IfOk result (λ _. Grows types.now shapes.old shapes.new found.old found.new) }
    ensures more { IfOk result (λ more. more ≡ true → unknown_in found.new.parts < unknown_in found.old.parts) }
    ensures same { IfOk result (λ more. more ≡ false → found.new ≡ found.old) }
    ensures settled { IfOk result (λ more. more ≡ false → (p : ℕ) → p < length types.now → IsSettled (trees_in shapes.new) types.now found.new p) }
{
    for place in 0..types.len() {
        if number_line(shapes, types, found, place)? {
            return Ok(true);
        }
    }
    Ok(false)
}

/// Numbers what a walk left. Of a formed table it leaves nothing, which is looked at here once, so that
/// nothing has to be said of its order.
fn settle(shapes: &mut Shapes, types: &[TypeEntry], found: &mut Found) -> Result<(), NoMemory>
    requires rising { IsStrictlyIncreasing (map (λ e. e.label) types.now) }
    requires right { AreRight (trees_in shapes.old) types.now found.old }
    requires room { length (trees_in shapes.old) + unknown_in found.old.parts < 2 ^ 32 }
    ensures grows { OnOk result (Grows types.now shapes.old shapes.new found.old found.new) }
    ensures settled { OnOk result ((p : ℕ) → p < length types.now → IsSettled (trees_in shapes.new) types.now found.new p) }
{
    let mut more = true;
    while more {
        more = one_more(shapes, types, found)?;
    }
    Ok(())
}

/// The numbers of all types that are at most as deep as types may be, and of the lists of such types.
pub fn found_in(shapes: &mut Shapes, types: &[TypeEntry]) -> Result<Found, NoMemory>
    requires rising { IsStrictlyIncreasing (map (λ e. e.label) types.now) }
    requires room { suc (length (trees_in shapes.old) + length types.now) < 2 ^ 32 }
    ensures labels { IfOk result (λ found. found.labels ≡ labels_in types.now) }
    ensures found { IfOk result (AreFound (trees_in shapes.new) types.now) }
    ensures grows { IfOk result (λ _. length (trees_in shapes.new) ≤ suc (length (trees_in shapes.old) + length types.now)) }
{
    let mut found = none_found(shapes, types)?;
    walk(shapes, types, &mut found)?;
    settle(shapes, types, &mut found)?;
    Ok(found)
}
