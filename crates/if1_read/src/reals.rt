//! Which types hold reals.
ghost use Rattle.std.specs.Prelude.{◌≡◌, ◌<◌, true, false, None, List, length, map, slice_index_or, IfOk, IfSome, OnOk, All};
ghost use Rattle.std.specs.List.Sorted.{IsStrictlyIncreasing};
ghost use Rattle.if1_graph.specs.Formed.{is_basic};
ghost use Rattle.if1_graph.specs.Kinds.{kind_at};
ghost use Rattle.if1_read.specs.Marks.{labels_in, is_set, mark_at, is_real_type, AreMarks};
ghost use Rattle.if1_graph.specs.declared.graph.TypeEntry.{TypeEntry};
ghost use Rattle.if1_read.specs.Spread.{is_holder, HasNoHolder, KeepsMarks, IsRealAt, AreTrue, LeadsTo, HoldsAs, StandsAt};

use flow_value::{NoMemory, Seq};
use if1_graph::{Basic, TypeEntry, TypeKind, basic_of, kind_of};
use std::alloc::Global;

/// A mark for each type of a table.
pub type Marks = Seq<bool>;

/// Whether a type is real or wild.
fn is_real(entry: &TypeEntry) -> bool
    ensures { result ≡ is_real_type entry.now }
{
    match (kind_of(entry.code), basic_of(entry.first)) {
        (Some(TypeKind::Basic), Some(Basic::Double | Basic::Real | Basic::Wild)) => true,
        _ => false,
    }
}

fn is_basic(entry: &TypeEntry) -> bool
    ensures { result ≡ is_basic (kind_at entry.now.code) }
{
    match kind_of(entry.code) {
        Some(TypeKind::Basic) => true,
        _ => false,
    }
}

fn real_marks(alloc: Global, types: &[TypeEntry]) -> Result<Marks, NoMemory>
    ensures { IfOk result (λ ms. ms ≡ map is_real_type types.now) }
{
    let mut marks = Seq::with_room(alloc, types.len())?;
    for entry in types {
        marks.add(is_real(entry))?;
    }
    Ok(marks)
}

/// The mark beside a label, none where there is no such type.
pub fn mark_of(labels: &[u32], marks: &[bool], label: u32) -> bool
    ensures { IsStrictlyIncreasing labels.now → result ≡ is_set (mark_at labels.now marks.now label) }
{
    match labels.binary_search(&label) {
        Ok(place) => match marks.get(place) {
            Some(mark) => *mark,
            None => false,
        },
        Err(_) => false,
    }
}

/// Whether a type is not marked and holds one that is.
fn is_next(labels: &[u32], marks: &[bool], mark: bool, entry: &TypeEntry) -> bool
    ensures unmarked { result ≡ true → mark ≡ false }
    ensures holder { IsStrictlyIncreasing labels.now → result ≡ is_holder labels.now marks.now mark entry.now }
{
    !mark
        && !is_basic(entry)
        && (mark_of(labels, marks, entry.first) || mark_of(labels, marks, entry.second))
}

/// A place of a type that is not marked and holds one that is.
fn next_holder(labels: &[u32], marks: &[bool], types: &[TypeEntry]) -> Option<usize>
    ensures some { IfSome result (λ k. (k < length marks.now) × (slice_index_or marks.now k true ≡ false)) }
    ensures none { result ≡ None → IsStrictlyIncreasing labels.now → length marks.now ≡ length types.now → HasNoHolder labels.now marks.now types.now }
    ensures real { IfSome result (λ k. labels.now ≡ labels_in types.now → IsStrictlyIncreasing labels.now → AreTrue types.now marks.now → IsRealAt types.now k) }
{
    for place in 0..types.len() {
        if place < marks.len() && is_next(labels, marks, marks[place], &types[place]) {
            return Some(place);
        }
    }
    None
}

/// Adds the place of a type that holds the one of a label.
fn add_holder(
    labels: &[u32],
    label: u32,
    place: usize,
    pairs: &mut Vec<(usize, usize)>,
) -> Result<(), NoMemory>
    ensures { OnOk result ((ts : List TypeEntry) → labels.now ≡ labels_in ts → IsStrictlyIncreasing labels.now → HoldsAs ts label place → All (LeadsTo ts) pairs.old.items → All (LeadsTo ts) pairs.new.items) }
{
    match labels.binary_search(&label) {
        Ok(part) => {
            pairs.push((part, place))?;
            Ok(())
        }
        Err(_) => Ok(()),
    }
}

/// Adds the place of a type with those of its parts.
fn add_holders(
    labels: &[u32],
    entry: &TypeEntry,
    place: usize,
    pairs: &mut Vec<(usize, usize)>,
) -> Result<(), NoMemory>
    ensures { OnOk result ((ts : List TypeEntry) → labels.now ≡ labels_in ts → IsStrictlyIncreasing labels.now → StandsAt ts place entry.now → All (LeadsTo ts) pairs.old.items → All (LeadsTo ts) pairs.new.items) }
{
    if is_basic(entry) {
        return Ok(());
    }
    add_holder(labels, entry.first, place, pairs)?;
    add_holder(labels, entry.second, place, pairs)?;
    Ok(())
}

/// The places of types and of those that hold them, by the place of the part.
fn holders(
    alloc: Global,
    labels: &[u32],
    types: &[TypeEntry],
) -> Result<Vec<(usize, usize)>, NoMemory>
    ensures { IfOk result (λ pairs. labels.now ≡ labels_in types.now → IsStrictlyIncreasing labels.now → All (LeadsTo types.now) pairs.items) }
{
    let mut pairs = Vec::new(alloc);
    for place in 0..types.len() {
        add_holders(labels, &types[place], place, &mut pairs)?;
    }
    pairs.sort()?;
    Ok(pairs)
}

fn marked_places(alloc: Global, marks: &[bool]) -> Result<Vec<usize>, NoMemory>
    ensures { IfOk result (λ places. (ts : List TypeEntry) → AreTrue ts marks.now → All (IsRealAt ts) places.items) }
{
    let mut places = Vec::new(alloc);
    for place in 0..marks.len() {
        if marks[place] {
            places.push(place)?;
        }
    }
    Ok(places)
}

/// Marks a type and keeps its place, where it is not marked yet.
fn mark(place: usize, marks: &mut Marks, todo: &mut Vec<usize>) -> Result<(), NoMemory>
    ensures keeps { OnOk result (KeepsMarks marks.old marks.new) }
    ensures real { OnOk result ((ts : List TypeEntry) → IsRealAt ts place → AreTrue ts marks.old → AreTrue ts marks.new) }
    ensures todo { OnOk result ((ts : List TypeEntry) → IsRealAt ts place → All (IsRealAt ts) todo.old.items → All (IsRealAt ts) todo.new.items) }
{
    if place < marks.len() && !marks.as_slice()[place] {
        marks.set(place, true);
        todo.push(place)?;
    }
    Ok(())
}

/// Marks those that hold a type, and keeps their places.
fn mark_holders(
    pairs: &[(usize, usize)],
    part: usize,
    marks: &mut Marks,
    todo: &mut Vec<usize>,
) -> Result<(), NoMemory>
    ensures keeps { OnOk result (KeepsMarks marks.old marks.new) }
    ensures real { OnOk result ((ts : List TypeEntry) → All (LeadsTo ts) pairs.now → IsRealAt ts part → AreTrue ts marks.old → AreTrue ts marks.new) }
    ensures todo { OnOk result ((ts : List TypeEntry) → All (LeadsTo ts) pairs.now → IsRealAt ts part → All (IsRealAt ts) todo.old.items → All (IsRealAt ts) todo.new.items) }
{
    let first = pairs.partition_point(|pair| pair.0 < part);
    for at in first..pairs.len() {
        if pairs[at].0 != part {
            return Ok(());
        }
        mark(pairs[at].1, marks, todo)?;
    }
    Ok(())
}

/// Marks the types that hold marked ones, at any depth.
fn spread(
    alloc: Global,
    labels: &[u32],
    types: &[TypeEntry],
    marks: &mut Marks,
) -> Result<(), NoMemory>
    ensures keeps { OnOk result (KeepsMarks marks.old marks.new) }
    ensures real { OnOk result (labels.now ≡ labels_in types.now → IsStrictlyIncreasing labels.now → AreTrue types.now marks.old → AreTrue types.now marks.new) }
{
    let pairs = holders(alloc, labels, types)?;
    let mut todo = marked_places(alloc, marks.as_slice())?;
    for _ in 0..types.len() {
        match todo.pop() {
            Some(place) => mark_holders(pairs.as_slice(), place, marks, &mut todo)?,
            None => return Ok(()),
        }
    }
    Ok(())
}

/// Marks for the types that are real or wild, or hold one that is, at any depth.
pub fn holding_reals(alloc: Global, labels: &[u32], types: &[TypeEntry]) -> Result<Marks, NoMemory>
    ensures all { IfOk result (λ ms. labels.now ≡ labels_in types.now → IsStrictlyIncreasing labels.now → AreMarks types.now ms) }
    ensures real { IfOk result (λ ms. labels.now ≡ labels_in types.now → IsStrictlyIncreasing labels.now → AreTrue types.now ms) }
{
    let mut marks = real_marks(alloc, types)?;
    spread(alloc, labels, types, &mut marks)?;
    for _ in 0..types.len() {
        match next_holder(labels, marks.as_slice(), types) {
            Some(place) => marks.set(place, true),
            None => return Ok(marks),
        }
    }
    Ok(marks)
}
