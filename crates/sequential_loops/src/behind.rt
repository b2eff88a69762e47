//! Collections that grow at their ends.
ghost use Rattle.std.specs.Prelude.{◌≡◌, [], ◌∷◌, ◌++◌, IfOk};
ghost use Rattle.flow_value.specs.declared.value.Val.TheViews.{out-Val};
ghost use Rattle.graph_meaning.specs.Carried.{Value, Many};
ghost use Rattle.graph_meaning.specs.Forms.{items};
ghost use Rattle.node_ops.specs.Operands.{multiple_in};
ghost use Rattle.run_code.specs.Collections.{behind, failing, none_in};
ghost use Rattle.run_store.specs.Stored as stored;
ghost use Rattle.run_cells.specs.Held.{held, rising_in};
ghost use Rattle.run_cells.specs.Sights.{seen_value};
ghost use Rattle.step_code.specs.Laid.{collect_in};
ghost use Rattle.sequential_loops.specs.Behind.{behind_held, failing_held};

use crate::columns::value_copied;
use crate::lengths::places_in;
use flow_value::{Cause, Items, NoMemory, Val};
use run_cells::{Boxed, Cell, Seen, element};
use std::alloc::Global;
use step_code::Collect;

/// A collection of no values, with room for so many where each row puts one.
pub fn nothing(alloc: Global, collect: Collect, room: usize) -> Result<Cell, NoMemory>
    ensures { IfOk result (λ c. held c ≡ stored.Owns (none_in (collect_in collect))) }
{
    match collect {
        Collect::Sifts { mask: None, .. } => {
            let none = Val::Stream(Items::with_room(alloc, room)?);
            Ok(Cell::Many(Boxed::new(alloc, none)?))
        }
        Collect::Sifts { .. } => {
            let none = Val::Stream(Items::new(alloc));
            Ok(Cell::Many(Boxed::new(alloc, none)?))
        }
        Collect::Final { .. } => Ok(Cell::Error(Cause::Empty)),
    }
}

/// A collection with a value behind it.
pub fn with_value(alloc: Global, cell: Cell, v: Val) -> Result<Cell, NoMemory>
    ensures { IfOk result (λ c. held c ≡ behind_held (held cell) v) }
{
    match cell {
        Cell::Many(stream) => stream_with(stream, v),
        Cell::Range(many, lo) => range_with(alloc, many, lo, v),
        Cell::Empty => Ok(Cell::Empty),
        Cell::Error(cause) => Ok(Cell::Error(cause)),
        Cell::Int(n) => Ok(Cell::Int(n)),
        Cell::Bool(b) => Ok(Cell::Bool(b)),
        Cell::Char(c) => Ok(Cell::Char(c)),
        Cell::Null => Ok(Cell::Null),
        Cell::UnionInt(tag, n) => Ok(Cell::UnionInt(tag, n)),
        Cell::Owned(value) => Ok(Cell::Owned(value)),
        Cell::Spoiled(cause) => Ok(Cell::Spoiled(cause)),
        Cell::Name(text) => Ok(Cell::Name(text)),
        Cell::Unfilled => Ok(Cell::Unfilled),
        Cell::Lent(owner) => Ok(Cell::Lent(owner)),
        Cell::LentPart(lent) => Ok(Cell::LentPart(lent)),
    }
}

/// The value goes into the list in its box, which takes memory only where the list has to grow.
fn stream_with(stream: Boxed<Val>, v: Val) -> Result<Cell, NoMemory>
    ensures { IfOk result (λ c. held c ≡ stored.Owns (behind (multiple_in stream (out-Val stream)) (Value v))) }
{
    let mut whole = stream;
    match whole.replace(Val::Null) {
        Val::Stream(items) => {
            let mut longer = items;
            longer.add(v)?;
            let _null = whole.replace(Val::Stream(longer));
            Ok(Cell::Many(whole))
        }
        Val::Err(cause) => Ok(Cell::Spoiled(cause)),
        other => {
            let _null = whole.replace(other);
            Ok(Cell::Many(whole))
        }
    }
}

fn range_with(alloc: Global, many: u32, lo: i64, v: Val) -> Result<Cell, NoMemory>
    ensures { IfOk result (λ c. held c ≡ stored.Owns (Many (rising_in lo many ++ v ∷ []))) }
{
    let items = list_of(alloc, Seen::Rising(many, lo))?;
    let mut longer = items;
    longer.add(v)?;
    Ok(Cell::Many(Boxed::new(alloc, Val::Stream(longer))?))
}

fn list_of(alloc: Global, multiple: Seen<'_>) -> Result<Items, NoMemory>
    ensures { IfOk result (λ xs. xs ≡ items (seen_value multiple.entry)) }
{
    let mut list = Items::new(alloc);
    for place in 0..places_in(multiple) {
        let value = value_copied(alloc, element(multiple, place))?;
        list.add(value)?;
    }
    Ok(list)
}

/// A collection whose mask is an error.
pub fn failed(cell: Cell, cause: Cause) -> Cell
    ensures { held result ≡ failing_held (held cell) cause }
{
    match cell {
        Cell::Many(stream) => stream_failed(stream, cause),
        Cell::Range(_, _) => Cell::Spoiled(cause),
        Cell::Empty => Cell::Empty,
        Cell::Error(before) => Cell::Error(before),
        Cell::Int(n) => Cell::Int(n),
        Cell::Bool(b) => Cell::Bool(b),
        Cell::Char(c) => Cell::Char(c),
        Cell::Null => Cell::Null,
        Cell::UnionInt(tag, n) => Cell::UnionInt(tag, n),
        Cell::Owned(value) => Cell::Owned(value),
        Cell::Spoiled(before) => Cell::Spoiled(before),
        Cell::Name(text) => Cell::Name(text),
        Cell::Unfilled => Cell::Unfilled,
        Cell::Lent(owner) => Cell::Lent(owner),
        Cell::LentPart(lent) => Cell::LentPart(lent),
    }
}

fn stream_failed(stream: Boxed<Val>, cause: Cause) -> Cell
    ensures { held result ≡ stored.Owns (failing cause (multiple_in stream (out-Val stream))) }
{
    let mut whole = stream;
    match whole.replace(Val::Null) {
        Val::Stream(_) => Cell::Spoiled(cause),
        Val::Err(before) => Cell::Spoiled(before),
        other => {
            let _null = whole.replace(other);
            Cell::Many(whole)
        }
    }
}
