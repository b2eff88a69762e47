//! What is put into a cell.
ghost use Rattle.std.specs.Prelude.{◌≡◌, ◌<◌, length, slice_set};
ghost use Rattle.run_cells.specs.declared.cell.Cell.TheVariants as cell;

use crate::giving::give_up;
use run_cells::Cell;
use std::mem;

/// Puts a value into a cell.
#[inline(always)]
pub fn put(cells: &mut Vec<Cell>, place: usize, cell: Cell)
    requires { place < length cells.old.items }
    ensures cells { cells.new.items ≡ slice_set cells.old.items place cell }
    ensures size { length cells.new.items ≡ length cells.old.items }
{
    // of a scalar nothing but its kind is read
    match &cells[place] {
        Cell::Empty | Cell::Error(_) | Cell::Int(_) | Cell::Bool(_) | Cell::Char(_) | Cell::Null =>
            put_over(cells, place, cell),
        Cell::UnionInt(_, _) | Cell::Lent(_) => put_over(cells, place, cell),
        _ => put_apart(cells, place, cell),
    }
}

/// Whether a cell has a scalar, or nothing.
#[inline(always)]
pub fn is_scalar(cell: &Cell) -> bool {
    match cell {
        Cell::Empty
        | Cell::Error(_)
        | Cell::Int(_)
        | Cell::Bool(_)
        | Cell::Char(_)
        | Cell::Null
        | Cell::UnionInt(_, _) => true,
        _ => false,
    }
}

/// Whether nothing is given up with what a cell has.
#[inline(always)]
pub fn is_left(cell: &Cell) -> bool {
    match cell {
        Cell::Empty
        | Cell::Error(_)
        | Cell::Int(_)
        | Cell::Bool(_)
        | Cell::Char(_)
        | Cell::Null
        | Cell::UnionInt(_, _)
        | Cell::Lent(_) => true,
        _ => false,
    }
}

#[inline(always)]
fn put_over(cells: &mut Vec<Cell>, place: usize, cell: Cell)
    requires { place < length cells.old.items }
    ensures cells { cells.new.items ≡ slice_set cells.old.items place cell }
    ensures size { length cells.new.items ≡ length cells.old.items }
{
    cells[place] = cell;
}

#[inline(always)]
fn put_apart(cells: &mut Vec<Cell>, place: usize, cell: Cell)
    requires { place < length cells.old.items }
    ensures cells { cells.new.items ≡ slice_set cells.old.items place cell }
    ensures size { length cells.new.items ≡ length cells.old.items }
{
    put_any(cells, place, cell);
}

/// Puts an integer into a cell. Where it has one, nothing but the number is written.
#[inline(always)]
pub fn put_number(cells: &mut Vec<Cell>, place: usize, number: i64)
    requires { place < length cells.old.items }
    ensures cells { cells.new.items ≡ slice_set cells.old.items place (cell.Int number) }
    ensures size { length cells.new.items ≡ length cells.old.items }
{
    match &mut cells[place] {
        Cell::Int(was) => *was = number,
        _ => put(cells, place, Cell::Int(number)),
    }
}

/// Puts a boolean into a cell. Where it has one, nothing else is written.
#[inline(always)]
pub fn put_boolean(cells: &mut Vec<Cell>, place: usize, value: bool)
    requires { place < length cells.old.items }
    ensures cells { cells.new.items ≡ slice_set cells.old.items place (cell.Bool value) }
    ensures size { length cells.new.items ≡ length cells.old.items }
{
    match &mut cells[place] {
        Cell::Bool(was) => *was = value,
        _ => put(cells, place, Cell::Bool(value)),
    }
}

/// Puts a cell, an integer or a boolean as a rule, by its kind.
#[inline(always)]
pub fn put_scalar(cells: &mut Vec<Cell>, place: usize, cell: Cell)
    requires { place < length cells.old.items }
    ensures cells { cells.new.items ≡ slice_set cells.old.items place cell }
    ensures size { length cells.new.items ≡ length cells.old.items }
{
    match cell {
        Cell::Int(number) => put_number(cells, place, number),
        Cell::Bool(value) => put_boolean(cells, place, value),
        other => put(cells, place, other),
    }
}

#[inline(never)]
fn put_any(cells: &mut Vec<Cell>, place: usize, cell: Cell)
    requires { place < length cells.old.items }
    ensures cells { cells.new.items ≡ slice_set cells.old.items place cell }
    ensures size { length cells.new.items ≡ length cells.old.items }
{
    give_up(mem::replace(&mut cells[place], cell));
}
