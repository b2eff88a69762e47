//! The table of types.
ghost use Rattle.std.specs.Prelude.{◌≡◌, ◌↔◌, ◌==◌, ℕ, None, true, List, map, filter, All, is_some, slice_index, IfOk, OnOk};
ghost use Rattle.std.specs.Option.{option_copied};
ghost use Rattle.std.specs.List.Sorted.{IsStrictlyIncreasing, IsNonDecreasingBy};
ghost use Rattle.if1_graph.specs.declared.graph.TypeEntry.{TypeEntry};
ghost use Rattle.if1_graph.specs.Formed.{IsType, IsTypeOrEnd, HasReal};
ghost use Rattle.if1_graph.specs.Kinds.{kind_at};
ghost use Rattle.if1_graph.specs.Types.{entry_at};
ghost use Rattle.if1_read.specs.Entries.{entries_of, HasEntryTypes, IsTableOf};
ghost use Rattle.if1_read.specs.Known.{IsTableSound, IsClear};
ghost use Rattle.if1_read.specs.Marks.{labels_in, is_marked};
ghost use Rattle.if1_read.specs.Least.{earlier, least};
ghost use Rattle.if1_read.specs.Rows.{is_past, over, kept, is_type_or_end, parts_there, wrong_entry, wrong_entries, table_faults};
ghost use Rattle.if1_read.specs.Rulings.{type_wrong, type_absent};
ghost use Rattle.if1_read.specs.Arranged.{IsArranged};

use crate::fault::{Fault, Kind, after, sooner};
use crate::reals::{Marks, holding_reals, mark_of};
use flow_value::{NoMemory, Numbers, Seq, item_at};
use if1_graph::{TypeEntry, TypeKind, TypeTable, kind_of};
use std::alloc::Global;

/// A type with its line.
pub type LinedEntry = (u32, TypeEntry);

/// Types by rising label, the line of each, and whether it holds reals.
#[derive(Drop)]
pub struct Table {
    pub types: TypeTable,
    pub labels: Numbers,
    pub reals: Marks,
}

/// At most so many types, and so many nodes in a graph.
pub const MOST: usize = 65535;

/// Whether a label is not above the last one, if there is one.
pub fn is_past(last: Option<u32>, label: u32) -> bool
    ensures { result ≡ is_past last label }
{
    match last {
        Some(last) => label <= last,
        None => false,
    }
}

fn sort_by_label(entries: &mut Vec<LinedEntry>) -> Result<(), NoMemory>
    ensures arranged { OnOk result (IsArranged (λ e. e.label) (entries_of entries.old.items) (entries_of entries.new.items)) }
    ensures same { OnOk result ((l : ℕ) → filter (λ e. e.1.label == l) entries.new.items ≡ filter (λ e. e.1.label == l) entries.old.items) }
    ensures rising { OnOk result (IsNonDecreasingBy (λ e. e.1.label) entries.new.items) }
{
    entries.sort_by_key(|entry| entry.1.label)?;
    Ok(())
}

/// What stands in the table once, with its lines, and the fault that is named when labels are there twice.
#[derive(Drop)]
struct Once {
    types: TypeTable,
    labels: Numbers,
    lines: Numbers,
    first: Option<Fault>,
}

fn each_once(
    alloc: Global,
    entries: Vec<LinedEntry>,
    first: Option<Fault>,
) -> Result<Once, NoMemory>
    ensures labels { IfOk result (λ o. o.labels ≡ labels_in o.types) }
    ensures rising { IfOk result (λ o. IsStrictlyIncreasing o.labels) }
    ensures clean { IfOk result (λ o. o.first ≡ None → first ≡ None) }
    ensures all { IfOk result (λ o. o.first ≡ None → o.types ≡ entries_of entries.items) }
    ensures found { IfOk result (λ o. o.first ≡ earlier first (least (over (λ e. e.label) None entries.items))) }
    ensures types { IfOk result (λ o. o.types ≡ entries_of (kept (λ e. e.label) None entries.items)) }
    ensures lines { IfOk result (λ o. o.lines ≡ map (λ e. e.0) (kept (λ e. e.label) None entries.items)) }
{
    let mut once = Once {
        types: Seq::with_room(alloc, entries.len())?,
        labels: Seq::with_room(alloc, entries.len())?,
        lines: Seq::with_room(alloc, entries.len())?,
        first,
    };
    let mut last = None;
    for (line, entry) in entries {
        if is_past(last, entry.label) {
            once.first = sooner(once.first, line, Kind::Bad);
        } else {
            last = Some(entry.label);
            once.labels.add(entry.label)?;
            once.lines.add(line)?;
            once.types.add(entry)?;
        }
    }
    Ok(once)
}

fn is_type(labels: &[u32], label: u32) -> bool
    ensures { (ts : List TypeEntry) → labels.now ≡ labels_in ts → IsStrictlyIncreasing labels.now → result ≡ is_some (entry_at ts label) }
{
    match labels.binary_search(&label) {
        Ok(_) => true,
        Err(_) => false,
    }
}

fn is_type_or_end(labels: &[u32], label: u32) -> bool
    ensures { (ts : List TypeEntry) → labels.now ≡ labels_in ts → IsStrictlyIncreasing labels.now → result ≡ is_type_or_end ts label }
{
    label == 0 || is_type(labels, label)
}

/// Whether the numbers of a type's line are labels of types where they have to be.
fn has_types(labels: &[u32], entry: &TypeEntry) -> bool
    ensures { (ts : List TypeEntry) → labels.now ≡ labels_in ts → IsStrictlyIncreasing labels.now → result ≡ parts_there ts (kind_at entry.now.code) entry.now.first entry.now.second }
{
    match kind_of(entry.code) {
        Some(TypeKind::Basic) => true,
        Some(TypeKind::Field | TypeKind::Tag | TypeKind::Tuple) => {
            is_type(labels, entry.first) && is_type_or_end(labels, entry.second)
        }
        Some(TypeKind::Function) => {
            is_type_or_end(labels, entry.first) && is_type(labels, entry.second)
        }
        Some(_) => is_type(labels, entry.first),
        None => false,
    }
}

fn unknown(labels: &[u32], entry: &TypeEntry) -> Option<Kind>
    ensures { (ts : List TypeEntry) → labels.now ≡ labels_in ts → IsStrictlyIncreasing labels.now → result ≡ wrong_entry ts entry.now }
{
    if has_types(labels, entry) {
        None
    } else {
        Some(Kind::Unknown)
    }
}

/// The fault that is named when the types were looked at.
fn looked_at(once: &Once) -> Option<Fault>
    ensures clean { result ≡ None → once.now.first ≡ None }
    ensures types { result ≡ None → once.now.labels ≡ labels_in once.now.types → IsStrictlyIncreasing once.now.labels → All (HasEntryTypes once.now.types) once.now.types }
    ensures found { (es : List (ℕ × TypeEntry)) → once.now.types ≡ entries_of es → once.now.lines ≡ map (λ e. e.0) es → once.now.labels ≡ labels_in once.now.types → IsStrictlyIncreasing once.now.labels → result ≡ earlier once.now.first (least (wrong_entries once.now.types es)) }
{
    let mut first = once.first;
    for place in 0..once.types.len() {
        let kind = unknown(once.labels.as_slice(), &once.types.as_slice()[place]);
        first = after(first, line_at(once.lines.as_slice(), place), kind);
    }
    first
}

fn line_at(lines: &[u32], place: usize) -> u32
    ensures { result ≡ slice_index lines.now place }
{
    match lines.get(place) {
        Some(line) => *line,
        None => 0,
    }
}

/// The table of the types of lines, and the fault that is named.
pub fn table_of(
    alloc: Global,
    entries: Vec<LinedEntry>,
    first: Option<Fault>,
) -> Result<(Table, Option<Fault>), NoMemory>
    ensures sound { IfOk result (λ r. IsTableSound r.0) }
    ensures clean { IfOk result (λ r. r.1 ≡ None → first ≡ None) }
    ensures table { IfOk result (λ r. r.1 ≡ None → IsTableOf r.0 (entries_of entries.items)) }
    ensures real { IfOk result (λ r. (l : ℕ) → is_marked r.0.types r.0.reals l ≡ true → HasReal r.0.types l) }
    ensures first { IfOk result (λ r. (l : ℕ) → entry_at r.0.types l ≡ entry_at (entries_of entries.items) l) }
    ensures found { IfOk result (λ r. r.1 ≡ earlier first (least (table_faults (entries_of entries.items) entries.items))) }
{
    let mut entries = entries;
    sort_by_label(&mut entries)?;
    let once = each_once(alloc, entries, first)?;
    let first = looked_at(&once);
    let Once { types, labels, .. } = once;
    let reals = holding_reals(alloc, labels.as_slice(), types.as_slice())?;
    Ok((
        Table {
            types,
            labels,
            reals,
        },
        first,
    ))
}

impl Table {
    /// The type of a label.
    pub fn entry(&self, label: u32) -> Option<&TypeEntry>
        ensures { IsTableSound self.now → option_copied result ≡ entry_at self.now.types label }
    {
        match self.labels.as_slice().binary_search(&label) {
            Ok(place) => item_at(self.types.as_slice(), place),
            Err(_) => None,
        }
    }

    /// Whether a type is there and holds no reals.
    pub fn is_clear(&self, label: u32) -> bool
        ensures { IsTableSound self.now → ((result ≡ true) ↔ IsClear self.now label) }
    {
        if is_type(self.labels.as_slice(), label) {
            !mark_of(self.labels.as_slice(), self.reals.as_slice(), label)
        } else {
            false
        }
    }

    /// Whether no type has a label that is not there, or holds reals.
    pub fn wrong(&self, label: u32) -> Option<Kind>
        ensures clear { result ≡ None → IsTableSound self.now → IsClear self.now label }
        ensures is { IsTableSound self.now → result ≡ type_wrong self.now label }
    {
        if !is_type(self.labels.as_slice(), label) {
            Some(Kind::Unknown)
        } else if mark_of(self.labels.as_slice(), self.reals.as_slice(), label) {
            Some(Kind::Real)
        } else {
            None
        }
    }

    /// Whether a label of a type is not there.
    pub fn absent(&self, label: u32) -> Option<Kind>
        ensures there { result ≡ None → IsTableSound self.now → IsType self.now.types label }
        ensures is { IsTableSound self.now → result ≡ type_absent self.now label }
    {
        if is_type(self.labels.as_slice(), label) {
            None
        } else {
            Some(Kind::Unknown)
        }
    }
}
