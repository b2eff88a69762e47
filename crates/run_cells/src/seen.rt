//! What is seen of what cells have.
ghost use Rattle.std.specs.Prelude.{◌≡◌, IfOk, min};
ghost use Rattle.flow_value.specs.declared.value.Val.TheVariants as val;
ghost use Rattle.flow_value.specs.declared.value.Val.TheViews.{out-Val};
ghost use Rattle.run_store.specs.Carried.{Value, Many, Name};
ghost use Rattle.run_store.specs.Storage.{leaves_of};
ghost use Rattle.node_ops.specs.Operands.{multiple_in};
ghost use Rattle.run_store.specs.Facts.{scattered, content, element};
ghost use Rattle.run_store.specs.Stored as stored;
ghost use Rattle.run_cells.specs.Held.{held, heap_of, read_in, rising_in, view_from};
ghost use Rattle.run_cells.specs.Sights.{seen_value, seen_from, part_seen};

use crate::boxed::Boxed;
use crate::cell::{Cell, Lent, Part};
use flow_value::{Cause, Held, NoMemory, Text, Val, copy, copy_all};
use std::alloc::Global;

/// What is carried in a cell, or a part of it: a scalar, or what has parts, which is lent.
#[derive(Clone, Copy)]
pub enum Seen<'a> {
    /// An error value.
    Error(Cause),
    /// An integer.
    Int(i64),
    /// A boolean.
    Bool(bool),
    /// A character, by its code.
    Char(u8),
    /// The value `nil`.
    Null,
    /// A union with this tag, of an integer.
    UnionInt(u32, i64),
    /// A value.
    Value(&'a Val),
    /// The multiple of these values.
    Elements(&'a [Val]),
    /// The multiple of so many integers, rising from the first.
    Rising(u32, i64),
    /// A multiple that is an error.
    Spoiled(Cause),
    /// A name.
    Name(&'a [u8]),
    /// What a port has that no edge fills.
    Unfilled,
}

/// What a cell owns; what it refers to is not looked at.
pub fn owned_by(cell: &Cell) -> Seen<'_>
    ensures { seen_value result ≡ stored.owned_in (held cell.now) }
{
    match cell {
        Cell::Empty => Seen::Unfilled,
        Cell::Error(cause) => Seen::Error(*cause),
        Cell::Int(n) => Seen::Int(*n),
        Cell::Bool(b) => Seen::Bool(*b),
        Cell::Char(c) => Seen::Char(*c),
        Cell::Null => Seen::Null,
        Cell::UnionInt(tag, n) => Seen::UnionInt(*tag, *n),
        Cell::Owned(v) => Seen::Value(v.get()),
        Cell::Range(n, lo) => Seen::Rising(*n, *lo),
        Cell::Many(v) => multiple(v.get()),
        Cell::Spoiled(cause) => Seen::Spoiled(*cause),
        Cell::Name(text) => Seen::Name(text.get().as_slice()),
        Cell::Unfilled => Seen::Unfilled,
        Cell::Lent(_) => Seen::Unfilled,
        Cell::LentPart(_) => Seen::Unfilled,
    }
}

fn multiple(v: &Val) -> Seen<'_>
    ensures { seen_value result ≡ multiple_in v.now (out-Val v.now) }
{
    match v {
        Val::Stream(items) => Seen::Elements(items.as_slice()),
        Val::Err(cause) => Seen::Spoiled(*cause),
        _ => Seen::Value(v),
    }
}

/// What is carried in a cell among these: its own, or what it refers to.
pub fn in_cell<'a>(cells: &'a [Cell], cell: &'a Cell) -> Seen<'a>
    ensures { seen_value result ≡ read_in cells.now cell.now }
{
    match cell {
        Cell::Lent(owner) => at(cells, *owner),
        Cell::LentPart(lent) => lent_part(cells, lent.get()),
        _ => owned_by(cell),
    }
}

fn lent_part<'a>(cells: &'a [Cell], lent: &Lent) -> Seen<'a>
    ensures { seen_value result ≡ stored.viewed (view_from stored.Whole lent.now.parts) (stored.owned_in (heap_of cells.now lent.now.owner)) }
{
    part_of(at(cells, lent.owner), lent.parts.as_slice())
}

fn at(cells: &[Cell], place: usize) -> Seen<'_>
    ensures { seen_value result ≡ stored.owned_in (heap_of cells.now place) }
{
    match cells.get(place) {
        Some(cell) => owned_by(cell),
        None => Seen::Unfilled,
    }
}

/// A part of what is seen, by a way from the outermost part on.
pub fn part_of<'a>(seen: Seen<'a>, parts: &[Part]) -> Seen<'a>
    ensures { seen_value result ≡ seen_from (seen_value seen.entry) parts.now }
{
    let mut reached = seen;
    for part in parts {
        reached = one_part(reached, *part);
    }
    reached
}

fn one_part(seen: Seen<'_>, part: Part) -> Seen<'_>
    ensures { seen_value result ≡ part_seen part (seen_value seen.entry) }
{
    match part {
        Part::Elements => elements(seen),
        Part::Content => content(seen),
        Part::Place(place) => element(seen, place),
    }
}

/// The multiple of the elements of an array or stream.
pub fn elements(seen: Seen<'_>) -> Seen<'_>
    ensures { seen_value result ≡ scattered (seen_value seen.entry) }
{
    match seen {
        Seen::Value(v) => elements_of(v),
        Seen::Error(cause) => Seen::Spoiled(cause),
        Seen::Spoiled(cause) => Seen::Spoiled(cause),
        _ => Seen::Spoiled(Cause::Explicit),
    }
}

fn elements_of(v: &Val) -> Seen<'_>
    ensures { seen_value result ≡ scattered (Value v.now) }
{
    match v {
        Val::Arr(a) => Seen::Elements(a.as_slice()),
        Val::Stream(items) => Seen::Elements(items.as_slice()),
        Val::Err(cause) => Seen::Spoiled(*cause),
        _ => Seen::Spoiled(Cause::Explicit),
    }
}

/// The content of a union.
pub fn content(seen: Seen<'_>) -> Seen<'_>
    ensures { seen_value result ≡ content (seen_value seen.entry) }
{
    match seen {
        Seen::Value(Val::Uni(_, held)) => Seen::Value(held.get()),
        Seen::UnionInt(_, n) => Seen::Int(n),
        _ => Seen::Unfilled,
    }
}

/// The element of a multiple at a place, counted from 0.
pub fn element(seen: Seen<'_>, place: usize) -> Seen<'_>
    ensures { seen_value result ≡ element place (seen_value seen.entry) }
{
    match seen {
        Seen::Elements(items) => item(items, place),
        Seen::Rising(count, lo) => number(count, lo, place),
        _ => Seen::Unfilled,
    }
}

fn item(items: &[Val], place: usize) -> Seen<'_>
    ensures { seen_value result ≡ element place (Many items.now) }
{
    match items.get(place) {
        Some(v) => Seen::Value(v),
        None => Seen::Unfilled,
    }
}

fn number<'a>(count: u32, lo: i64, place: usize) -> Seen<'a>
    ensures { seen_value result ≡ element place (Many (rising_in lo count)) }
{
    if place < count as usize {
        integer(lo.saturating_add(place as i64))
    } else {
        Seen::Unfilled
    }
}

fn integer<'a>(n: i64) -> Seen<'a>
    ensures { seen_value result ≡ Value (Val.Int n) }
{
    Seen::Int(n)
}

/// A cell that has a copy of what is seen.
pub fn copied(alloc: Global, seen: Seen<'_>) -> Result<Cell, NoMemory>
    ensures { IfOk result (λ c. held c ≡ stored.Owns (seen_value seen.entry)) }
{
    match seen {
        Seen::Error(cause) => Ok(Cell::Error(cause)),
        Seen::Int(n) => Ok(Cell::Int(n)),
        Seen::Bool(b) => Ok(Cell::Bool(b)),
        Seen::Char(c) => Ok(Cell::Char(c)),
        Seen::Null => Ok(Cell::Null),
        Seen::UnionInt(tag, n) => Ok(Cell::UnionInt(tag, n)),
        Seen::Value(v) => copied_value(alloc, v),
        Seen::Elements(items) => copied_items(alloc, items),
        Seen::Rising(count, lo) => Ok(Cell::Range(count, lo)),
        Seen::Spoiled(cause) => Ok(Cell::Spoiled(cause)),
        Seen::Name(text) => copied_name(alloc, text),
        Seen::Unfilled => Ok(Cell::Unfilled),
    }
}

fn copied_value(alloc: Global, v: &Val) -> Result<Cell, NoMemory>
    ensures { IfOk result (λ c. held c ≡ stored.Owns (Value v.now)) }
{
    match v {
        Val::Err(cause) => Ok(Cell::Error(*cause)),
        Val::Int(n) => Ok(Cell::Int(*n)),
        Val::Bool(b) => Ok(Cell::Bool(*b)),
        Val::Char(c) => Ok(Cell::Char(*c)),
        Val::Null => Ok(Cell::Null),
        Val::Uni(tag, held) => copied_union(alloc, v, *tag, held.get()),
        _ => boxed_copy(alloc, v),
    }
}

/// The same of a union, by its content.
fn copied_union(alloc: Global, v: &Val, tag: u32, content: &Val) -> Result<Cell, NoMemory>
    requires { v.now ≡ val.Uni tag content.now }
    ensures { IfOk result (λ c. held c ≡ stored.Owns (Value v.now)) }
{
    match content {
        Val::Int(n) => Ok(Cell::UnionInt(tag, *n)),
        _ => boxed_copy(alloc, v),
    }
}

fn boxed_copy(alloc: Global, v: &Val) -> Result<Cell, NoMemory>
    ensures { IfOk result (λ c. held c ≡ stored.Owns (Value v.now)) }
{
    Ok(Cell::Owned(Boxed::new(alloc, copy(alloc, v)?)?))
}

fn copied_items(alloc: Global, items: &[Val]) -> Result<Cell, NoMemory>
    ensures { IfOk result (λ c. held c ≡ stored.Owns (Many items.now)) }
{
    let stream = Val::Stream(copy_all(alloc, items)?);
    Ok(Cell::Many(Boxed::new(alloc, stream)?))
}

fn copied_name(alloc: Global, text: &[u8]) -> Result<Cell, NoMemory>
    ensures { IfOk result (λ c. held c ≡ stored.Owns (Name text.now)) }
{
    Ok(Cell::Name(Boxed::new(alloc, Text::from_slice(alloc, text)?)?))
}

/// A union of an integer, in a box.
pub fn union_of(alloc: Global, tag: u32, n: i64) -> Result<Val, NoMemory>
    ensures { IfOk result (λ v. v ≡ val.Uni tag (val.Int n)) }
{
    Ok(Val::Uni(tag, Held::new(alloc, Val::Int(n))?))
}

/// A cell that has a value.
pub fn cell_of(alloc: Global, v: Val) -> Result<Cell, NoMemory>
    ensures { IfOk result (λ c. held c ≡ stored.Owns (Value v)) }
{
    match v {
        Val::Err(cause) => Ok(Cell::Error(cause)),
        Val::Int(n) => Ok(Cell::Int(n)),
        Val::Bool(b) => Ok(Cell::Bool(b)),
        Val::Char(c) => Ok(Cell::Char(c)),
        Val::Null => Ok(Cell::Null),
        _ => Ok(Cell::Owned(Boxed::new(alloc, v)?)),
    }
}
