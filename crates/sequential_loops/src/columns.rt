//! Values of a row that is put.
ghost use Rattle.std.specs.Prelude.{◌≡◌, ℕ, true, false, get_or, IfOk, MatchOption};
ghost use Rattle.flow_value.specs.declared.value.Val.TheVariants as val;
ghost use Rattle.flow_value.specs.declared.value.Val.TheViews.{out-Val};
ghost use Rattle.graph_meaning.specs.Carried.{Value, Unfilled, val_of};
ghost use Rattle.loop_folds.specs.Masks.{keep_of};
ghost use Rattle.node_ops.specs.Operands.{multiple_in};
ghost use Rattle.run_code.specs.Collecting.{says};
ghost use Rattle.run_store.specs.Stored as stored;
ghost use Rattle.run_cells.specs.Held.{held, heap_of};
ghost use Rattle.run_cells.specs.Sights.{seen_value};
ghost use Rattle.sequential.specs.Agrees.{owned_all};

use crate::laying::lift;
use flow_value::{Cause, NoMemory, Val, copy};
use loop_folds::{Keep, Masking, keep};
use run_cells::{Cell, Seen, copied, owned_by, union_of};
use sequential::cell_at;
use std::alloc::Global;

/// What a row has in a column.
pub fn column(row: &[Cell], place: u32) -> Seen<'_>
    ensures { seen_value result ≡ get_or (owned_all row.now) place Unfilled }
{
    let at = place as usize;
    let long = row.len();
    if at < long {
        owned_by(cell_at(row, at))
    } else {
        Seen::Unfilled
    }
}

/// The integer that a row has in a column, if it is one.
#[inline(always)]
pub fn number_in(row: &[Cell], place: u32) -> Option<i64>
    ensures { MatchOption result (Unit {0}) (λ n. get_or (owned_all row.now) place Unfilled ≡ Value (val.Int n)) }
{
    let at = place as usize;
    if at < row.len() {
        number_owned(cell_at(row, at))
    } else {
        None
    }
}

#[inline(always)]
fn number_owned(cell: &Cell) -> Option<i64>
    ensures { MatchOption result (Unit {0}) (λ n. stored.owned_in (held cell.now) ≡ Value (val.Int n)) }
{
    match cell {
        Cell::Int(n) => Some(*n),
        _ => None,
    }
}

/// What the mask of a row says.
pub fn said(row: &[Cell], mask: Option<u32>) -> Keep
    ensures { result ≡ says mask (owned_all row.now) }
{
    match mask {
        None => Keep::Kept,
        Some(place) => said_by(column(row, place)),
    }
}

fn said_by(seen: Seen<'_>) -> Keep
    ensures { result ≡ keep_of Masking.When (val_of (seen_value seen.entry)) }
{
    match seen {
        Seen::Bool(b) => of_boolean(b),
        Seen::Error(cause) => Keep::Failed(cause),
        Seen::Spoiled(cause) => Keep::Failed(cause),
        Seen::Value(v) => keep(Masking::When, v),
        _ => Keep::Failed(Cause::Explicit),
    }
}

fn of_boolean(b: bool) -> Keep
    ensures { result ≡ keep_of Masking.When (Val.Bool b) }
{
    if b { Keep::Kept } else { Keep::Dropped }
}

/// The value in a column of a row, which leaves the row where it is moved and not copied.
pub fn column_value(
    alloc: Global,
    row: &mut Vec<Cell>,
    place: u32,
    moves: bool,
    copies: bool,
) -> Result<Val, NoMemory>
    ensures value { IfOk result (λ v. v ≡ val_of (get_or (owned_all row.old.items) place Unfilled)) }
    ensures others { (i : ℕ) → (moves ≡ true → (copies ≡ false) × (i ≡ place) → ⊥) → heap_of row.new.items i ≡ heap_of row.old.items i }
    ensures whole { moves ≡ false → row.new.items ≡ row.old.items }
{
    if copies {
        let value = value_copied(alloc, column(row.as_slice(), place))?;
        return Ok(value);
    }
    if moves {
        value_taken(alloc, row, place)
    } else {
        let value = value_copied(alloc, column(row.as_slice(), place))?;
        Ok(value)
    }
}

fn value_taken(alloc: Global, row: &mut Vec<Cell>, place: u32) -> Result<Val, NoMemory>
    ensures value { IfOk result (λ v. v ≡ val_of (get_or (owned_all row.old.items) place Unfilled)) }
    ensures others { (i : ℕ) → (i ≡ place → ⊥) → heap_of row.new.items i ≡ heap_of row.old.items i }
{
    let at = place as usize;
    let long = row.len();
    if at < long {
        value_moved(alloc, lift(row, at))
    } else {
        Ok(Val::Err(Cause::Explicit))
    }
}

fn value_moved(alloc: Global, cell: Cell) -> Result<Val, NoMemory>
    ensures { IfOk result (λ v. v ≡ val_of (stored.owned_in (held cell))) }
{
    match cell {
        Cell::Empty => Ok(Val::Err(Cause::Explicit)),
        Cell::Error(cause) => Ok(Val::Err(cause)),
        Cell::Int(n) => Ok(Val::Int(n)),
        Cell::Bool(b) => Ok(Val::Bool(b)),
        Cell::Char(c) => Ok(Val::Char(c)),
        Cell::Null => Ok(Val::Null),
        Cell::UnionInt(tag, n) => union_of(alloc, tag, n),
        Cell::Owned(v) => Ok(v.into_inner()),
        Cell::Range(_, _) => Ok(Val::Err(Cause::Explicit)),
        Cell::Many(v) => Ok(of_multiple(v.into_inner())),
        Cell::Spoiled(cause) => Ok(Val::Err(cause)),
        Cell::Name(_) => Ok(Val::Err(Cause::Explicit)),
        Cell::Unfilled => Ok(Val::Err(Cause::Explicit)),
        Cell::Lent(_) => Ok(Val::Err(Cause::Explicit)),
        Cell::LentPart(_) => Ok(Val::Err(Cause::Explicit)),
    }
}

fn of_multiple(v: Val) -> Val
    ensures { result ≡ val_of (multiple_in v (out-Val v)) }
{
    match v {
        Val::Stream(_) => Val::Err(Cause::Explicit),
        Val::Err(cause) => Val::Err(cause),
        other => other,
    }
}

/// What a row has in a column, in a cell of its own; it leaves the row where it is moved.
pub fn last_in(
    alloc: Global,
    row: &mut Vec<Cell>,
    place: u32,
    moves: bool,
) -> Result<Cell, NoMemory>
    ensures value { IfOk result (λ c. held c ≡ stored.Owns (get_or (owned_all row.old.items) place Unfilled)) }
    ensures others { (i : ℕ) → (moves ≡ true → i ≡ place → ⊥) → heap_of row.new.items i ≡ heap_of row.old.items i }
    ensures whole { moves ≡ false → row.new.items ≡ row.old.items }
{
    if moves {
        Ok(cell_taken(row, place))
    } else {
        let cell = copied(alloc, column(row.as_slice(), place))?;
        Ok(cell)
    }
}

fn cell_taken(row: &mut Vec<Cell>, place: u32) -> Cell
    ensures value { held result ≡ stored.Owns (get_or (owned_all row.old.items) place Unfilled) }
    ensures others { (i : ℕ) → (i ≡ place → ⊥) → heap_of row.new.items i ≡ heap_of row.old.items i }
{
    let at = place as usize;
    let long = row.len();
    if at < long {
        own_of(lift(row, at))
    } else {
        Cell::Unfilled
    }
}

/// What a cell has of its own, and nothing where it is lent or empty.
fn own_of(cell: Cell) -> Cell
    ensures { held result ≡ stored.Owns (stored.owned_in (held cell)) }
{
    match cell {
        Cell::Empty => Cell::Unfilled,
        Cell::Lent(_) => Cell::Unfilled,
        Cell::LentPart(_) => Cell::Unfilled,
        owned => owned,
    }
}

/// A copy of the value that is seen.
pub fn value_copied(alloc: Global, seen: Seen<'_>) -> Result<Val, NoMemory>
    ensures { IfOk result (λ v. v ≡ val_of (seen_value seen.entry)) }
{
    match seen {
        Seen::Error(cause) => Ok(Val::Err(cause)),
        Seen::Int(n) => Ok(Val::Int(n)),
        Seen::Bool(b) => Ok(Val::Bool(b)),
        Seen::Char(c) => Ok(Val::Char(c)),
        Seen::Null => Ok(Val::Null),
        Seen::UnionInt(tag, n) => union_of(alloc, tag, n),
        Seen::Value(v) => copied_of(alloc, v),
        Seen::Elements(_) => Ok(Val::Err(Cause::Explicit)),
        Seen::Rising(_, _) => Ok(Val::Err(Cause::Explicit)),
        Seen::Spoiled(cause) => Ok(Val::Err(cause)),
        Seen::Name(_) => Ok(Val::Err(Cause::Explicit)),
        Seen::Unfilled => Ok(Val::Err(Cause::Explicit)),
    }
}

fn copied_of(alloc: Global, v: &Val) -> Result<Val, NoMemory>
    ensures { IfOk result (λ w. w ≡ v.now) }
{
    match v {
        Val::Int(n) => Ok(Val::Int(*n)),
        _ => copy(alloc, v),
    }
}
