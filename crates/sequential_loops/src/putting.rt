//! What a row puts to a collection.
ghost use Rattle.std.specs.Prelude.{◌≡◌, ℕ, true, false, get_or, IfOk};
ghost use Rattle.graph_meaning.specs.Carried.{Carried, Unfilled};
ghost use Rattle.run_code.specs.Collecting.{says};
ghost use Rattle.run_code.specs.Collections.{behind_where, put_in};
ghost use Rattle.run_store.specs.Stored as stored;
ghost use Rattle.run_cells.specs.Held.{held, heap_of};
ghost use Rattle.step_code.specs.Laid.{collect_in};
ghost use Rattle.sequential.specs.Agrees.{owned_all};
ghost use Rattle.sequential_loops.specs.Putting.{IsMoved};

use crate::behind::{failed, with_value};
use crate::columns::{column_value, last_in, said};
use flow_value::NoMemory;
use loop_folds::Keep;
use run_cells::Cell;
use std::alloc::Global;
use step_code::Collect;

/// A collection with what a row puts to it. Where values are moved, one that is not counted as a
/// copy leaves the row.
pub fn put(
    alloc: Global,
    collect: Collect,
    row: &mut Vec<Cell>,
    moves: bool,
    cell: Cell,
) -> Result<Cell, NoMemory>
    ensures value { IfOk result (λ c. (m : Carried) → held cell ≡ stored.Owns m → held c ≡ stored.Owns (put_in (collect_in collect) (owned_all row.old.items) m)) }
    ensures others { (i : ℕ) → (moves ≡ true → IsMoved collect i → ⊥) → heap_of row.new.items i ≡ heap_of row.old.items i }
    ensures whole { moves ≡ false → row.new.items ≡ row.old.items }
{
    match collect {
        Collect::Sifts {
            column: place,
            mask,
            copies,
        } => {
            let more = sifted(alloc, place, mask, copies, row, moves, cell)?;
            Ok(more)
        }
        Collect::Final { column: place } => {
            let last = last_in(alloc, row, place, moves)?;
            Ok(last)
        }
    }
}

fn sifted(
    alloc: Global,
    place: u32,
    mask: Option<u32>,
    copies: bool,
    row: &mut Vec<Cell>,
    moves: bool,
    cell: Cell,
) -> Result<Cell, NoMemory>
    ensures value { IfOk result (λ c. (m : Carried) → held cell ≡ stored.Owns m → held c ≡ stored.Owns (behind_where (says mask (owned_all row.old.items)) m (get_or (owned_all row.old.items) place Unfilled))) }
    ensures others { (i : ℕ) → (moves ≡ true → (copies ≡ false) × (i ≡ place) → ⊥) → heap_of row.new.items i ≡ heap_of row.old.items i }
    ensures whole { moves ≡ false → row.new.items ≡ row.old.items }
{
    match said(row.as_slice(), mask) {
        Keep::Kept => {
            let value = column_value(alloc, row, place, moves, copies)?;
            let longer = with_value(alloc, cell, value)?;
            Ok(longer)
        }
        Keep::Dropped => Ok(cell),
        Keep::Failed(cause) => Ok(failed(cell, cause)),
    }
}
