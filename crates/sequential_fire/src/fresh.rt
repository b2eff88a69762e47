//! What is put into cells that have nothing, as a rule.
ghost use Rattle.std.specs.Prelude.{◌≡◌, ◌<◌, length, slice_set};
ghost use Rattle.run_cells.specs.declared.cell.Cell.TheVariants as cell;

use run_cells::Cell;
use sequential::{give_up, put};
use std::mem;

/// Puts a value into a cell. Where the cell has nothing, no more is looked at.
#[inline(always)]
pub fn put_fresh(cells: &mut Vec<Cell>, place: usize, cell: Cell)
    requires { place < length cells.old.items }
    ensures cells { cells.new.items ≡ slice_set cells.old.items place cell }
    ensures size { length cells.new.items ≡ length cells.old.items }
{
    if is_empty(&cells[place]) {
        put_first(cells, place, cell);
    } else {
        put_again(cells, place, cell);
    }
}

#[inline(always)]
fn is_empty(cell: &Cell) -> bool {
    match cell {
        Cell::Empty => true,
        _ => false,
    }
}

#[inline(always)]
fn put_first(cells: &mut Vec<Cell>, place: usize, cell: Cell)
    requires { place < length cells.old.items }
    ensures cells { cells.new.items ≡ slice_set cells.old.items place cell }
    ensures size { length cells.new.items ≡ length cells.old.items }
{
    match mem::replace(&mut cells[place], cell) {
        Cell::Empty => {}
        other => give_up(other),
    }
}

#[inline(never)]
fn put_again(cells: &mut Vec<Cell>, place: usize, cell: Cell)
    requires { place < length cells.old.items }
    ensures cells { cells.new.items ≡ slice_set cells.old.items place cell }
    ensures size { length cells.new.items ≡ length cells.old.items }
{
    put(cells, place, cell);
}

/// Puts an integer into a cell. Where it has one, nothing but the number is written.
#[inline(always)]
pub fn number_fresh(cells: &mut Vec<Cell>, place: usize, number: i64)
    requires { place < length cells.old.items }
    ensures cells { cells.new.items ≡ slice_set cells.old.items place (cell.Int number) }
    ensures size { length cells.new.items ≡ length cells.old.items }
{
    match &mut cells[place] {
        Cell::Int(was) => *was = number,
        _ => put_fresh(cells, place, Cell::Int(number)),
    }
}
