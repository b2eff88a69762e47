//! Rows that are put to collections in cells.
ghost use Rattle.std.specs.Prelude.{◌≡◌, ℕ, ◌+◌, ◌<◌, ◌≤◌, List, true, false, get_or, slice_get, length, Some, IfOk, OnOk};
ghost use Rattle.graph_meaning.specs.Carried.{Carried, Unfilled};
ghost use Rattle.run_code.specs.Collecting.{says};
ghost use Rattle.run_code.specs.Collections.{behind_where, put_in, put_all};
ghost use Rattle.run_store.specs.Stored as stored;
ghost use Rattle.run_cells.specs.Held.{held, heap_of};
ghost use Rattle.step_code.specs.Laid.{collect_in};
ghost use Rattle.step_code.specs.Reading.{so_many};
ghost use Rattle.sequential.specs.Agrees.{owned_all};
ghost use Rattle.sequential_loops.specs.Laying.{IsLaid, owning};
ghost use Rattle.sequential_loops.specs.Putting.{IsMoved, AreMovedOnce, IsThere, AreThere, collections_of};

use crate::behind::nothing;
use crate::columns::{number_in, said};
use crate::laying::{lay, lift};
use crate::pushing::is_pushed;
use crate::putting::put;
use flow_value::NoMemory;
use loop_folds::Keep;
use run_cells::Cell;
use std::alloc::Global;
use step_code::{Code, Collect};

/// So many collections from one on.
pub fn collects_from(code: &Code, first: u32, many: u32) -> &[Collect]
    requires { first + many ≤ length code.now.collects }
    ensures { result.now ≡ so_many first many code.now.collects }
{
    &code.collects.as_slice()[first as usize..first as usize + many as usize]
}

/// Puts a row to collections, which begin or stand in the cells from one on. Where values are
/// moved, those that are not copied leave the row.
pub fn put_row(
    alloc: Global,
    collects: &[Collect],
    begins: bool,
    cells: &mut Vec<Cell>,
    from: usize,
    row: &mut Vec<Cell>,
    moves: bool,
) -> Result<(), NoMemory>
    requires room { from + length collects.now ≤ length cells.old.items }
    requires once { moves ≡ true → AreMovedOnce collects.now }
    ensures puts { OnOk result ((ms : List Carried) → AreThere begins collects.now from ms (heap_of cells.old.items) → IsLaid from (length collects.now) (owning (put_all (collections_of collects.now) (owned_all row.old.items) ms)) (heap_of cells.old.items) (heap_of cells.new.items)) }
    ensures whole { moves ≡ false → row.new.items ≡ row.old.items }
    ensures size { length cells.new.items ≡ length cells.old.items }
{
    for place in 0..collects.len() {
        let collect = collect_at(collects, place);
        put_at(alloc, collect, begins, cells, from + place, row, moves)?;
    }
    Ok(())
}

/// The collection at a place.
pub fn collect_at(collects: &[Collect], place: usize) -> Collect
    requires { place < length collects.now }
    ensures { slice_get collects.now place ≡ Some result }
{
    collects[place]
}

fn put_at(
    alloc: Global,
    collect: Collect,
    begins: bool,
    cells: &mut Vec<Cell>,
    place: usize,
    row: &mut Vec<Cell>,
    moves: bool,
) -> Result<(), NoMemory>
    requires { place < length cells.old.items }
    ensures put { OnOk result ((m : Carried) → IsThere begins collect m (heap_of cells.old.items place) → heap_of cells.new.items place ≡ stored.Owns (put_in (collect_in collect) (owned_all row.old.items) m)) }
    ensures others { (q : ℕ) → (q ≡ place → ⊥) → heap_of cells.new.items q ≡ heap_of cells.old.items q }
    ensures row { (i : ℕ) → (moves ≡ true → IsMoved collect i → ⊥) → heap_of row.new.items i ≡ heap_of row.old.items i }
    ensures whole { moves ≡ false → row.new.items ≡ row.old.items }
    ensures size { length cells.new.items ≡ length cells.old.items }
{
    if !begins && is_put_in_place(collect, cells, place, row.as_slice()) {
        return Ok(());
    }
    put_anew(alloc, collect, begins, cells, place, row, moves)
}

/// Puts the integer that a row puts to a collection, if it puts one and the list has room for it.
fn is_put_in_place(collect: Collect, cells: &mut Vec<Cell>, place: usize, row: &[Cell]) -> bool
    requires { place < length cells.old.items }
    ensures put { result ≡ true → (m : Carried) → heap_of cells.old.items place ≡ stored.Owns m → heap_of cells.new.items place ≡ stored.Owns (put_in (collect_in collect) (owned_all row.now) m) }
    ensures none { result ≡ false → (q : ℕ) → heap_of cells.new.items q ≡ heap_of cells.old.items q }
    ensures others { (q : ℕ) → (q ≡ place → ⊥) → heap_of cells.new.items q ≡ heap_of cells.old.items q }
    ensures size { length cells.new.items ≡ length cells.old.items }
{
    match collect {
        Collect::Sifts {
            column: from,
            mask,
            copies,
        } => {
            let _counted_elsewhere = copies;
            is_sifted(from, mask, cells, place, row)
        }
        Collect::Final { .. } => false,
    }
}

fn is_sifted(
    column: u32,
    mask: Option<u32>,
    cells: &mut Vec<Cell>,
    place: usize,
    row: &[Cell],
) -> bool
    requires { place < length cells.old.items }
    ensures put { result ≡ true → (m : Carried) → heap_of cells.old.items place ≡ stored.Owns m → heap_of cells.new.items place ≡ stored.Owns (behind_where (says mask (owned_all row.now)) m (get_or (owned_all row.now) column Unfilled)) }
    ensures none { result ≡ false → (q : ℕ) → heap_of cells.new.items q ≡ heap_of cells.old.items q }
    ensures others { (q : ℕ) → (q ≡ place → ⊥) → heap_of cells.new.items q ≡ heap_of cells.old.items q }
    ensures size { length cells.new.items ≡ length cells.old.items }
{
    match said(row, mask) {
        Keep::Kept => match number_in(row, column) {
            Some(n) => is_pushed(cells, place, n),
            None => false,
        },
        Keep::Dropped => true,
        Keep::Failed(_) => false,
    }
}

fn put_anew(
    alloc: Global,
    collect: Collect,
    begins: bool,
    cells: &mut Vec<Cell>,
    place: usize,
    row: &mut Vec<Cell>,
    moves: bool,
) -> Result<(), NoMemory>
    requires { place < length cells.old.items }
    ensures put { OnOk result ((m : Carried) → IsThere begins collect m (heap_of cells.old.items place) → heap_of cells.new.items place ≡ stored.Owns (put_in (collect_in collect) (owned_all row.old.items) m)) }
    ensures others { (q : ℕ) → (q ≡ place → ⊥) → heap_of cells.new.items q ≡ heap_of cells.old.items q }
    ensures row { (i : ℕ) → (moves ≡ true → IsMoved collect i → ⊥) → heap_of row.new.items i ≡ heap_of row.old.items i }
    ensures whole { moves ≡ false → row.new.items ≡ row.old.items }
    ensures size { length cells.new.items ≡ length cells.old.items }
{
    let before = started(alloc, collect, begins, cells, place)?;
    let after = put(alloc, collect, row, moves, before)?;
    lay(cells, place, after);
    Ok(())
}

fn started(
    alloc: Global,
    collect: Collect,
    begins: bool,
    cells: &mut Vec<Cell>,
    place: usize,
) -> Result<Cell, NoMemory>
    requires { place < length cells.old.items }
    ensures value { IfOk result (λ c. (m : Carried) → IsThere begins collect m (heap_of cells.old.items place) → held c ≡ stored.Owns m) }
    ensures others { (q : ℕ) → (q ≡ place → ⊥) → heap_of cells.new.items q ≡ heap_of cells.old.items q }
    ensures size { length cells.new.items ≡ length cells.old.items }
{
    if begins {
        let none = nothing(alloc, collect, 0)?;
        Ok(none)
    } else {
        Ok(lift(cells, place))
    }
}
