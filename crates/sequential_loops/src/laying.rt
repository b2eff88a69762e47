//! Cells that are laid and lifted.
ghost use Rattle.std.specs.Prelude.{◌≡◌, ℕ, ◌+◌, ◌<◌, ◌≤◌, length, slice_set};
ghost use Rattle.run_cells.specs.declared.cell.Cell.TheVariants as cell;
ghost use Rattle.run_cells.specs.Held.{held, heap_of};
ghost use Rattle.sequential_loops.specs.Laying.{IsLaid};

use run_cells::Cell;
use sequential::give_up;
use std::mem;

/// Puts what was brought into as many cells from one on.
#[inline(always)]
pub fn settle(cells: &mut Vec<Cell>, from: usize, loaded: &mut Vec<Cell>)
    requires { from + length loaded.old.items ≤ length cells.old.items }
    ensures laid { IsLaid from (length loaded.old.items) (heap_of loaded.old.items) (heap_of cells.old.items) (heap_of cells.new.items) }
    ensures size { length cells.new.items ≡ length cells.old.items }
{
    for place in 0..loaded.len() {
        let cell = lift(loaded, place);
        lay(cells, from + place, cell);
    }
}

/// Puts a cell at a place.
#[inline(always)]
pub fn lay(cells: &mut Vec<Cell>, place: usize, cell: Cell)
    requires { place < length cells.old.items }
    ensures here { heap_of cells.new.items place ≡ held cell }
    ensures others { (q : ℕ) → (q ≡ place → ⊥) → heap_of cells.new.items q ≡ heap_of cells.old.items q }
    ensures size { length cells.new.items ≡ length cells.old.items }
{
    // of a scalar nothing but its kind is read
    if is_scalar(&cells[place]) {
        lay_over(cells, place, cell);
    } else {
        lay_apart(cells, place, cell);
    }
}

/// Puts two integers at a place and behind it.
#[inline(always)]
pub fn lay_numbers(cells: &mut Vec<Cell>, place: usize, first: i64, second: i64)
    requires { place + 2 ≤ length cells.old.items }
    ensures cells { cells.new.items ≡ slice_set (slice_set cells.old.items place (cell.Int first)) (place + 1) (cell.Int second) }
{
    let all = cells.as_mut_slice();
    set_number(all, place, first);
    set_number(all, place + 1, second);
}

/// The same of three.
#[inline(always)]
pub fn lay_three(cells: &mut Vec<Cell>, place: usize, first: i64, second: i64, third: i64)
    requires { place + 3 ≤ length cells.old.items }
    ensures cells { cells.new.items ≡ slice_set (slice_set (slice_set cells.old.items place (cell.Int first)) (place + 1) (cell.Int second)) (place + 2) (cell.Int third) }
{
    let all = cells.as_mut_slice();
    set_number(all, place, first);
    set_number(all, place + 1, second);
    set_number(all, place + 2, third);
}

/// Puts an integer at a place. Where it has one, nothing but the number is written.
#[inline(always)]
fn set_number(cells: &mut [Cell], place: usize, number: i64)
    requires { place < length cells.old }
    ensures { cells.new ≡ slice_set cells.old place (cell.Int number) }
{
    match &mut cells[place] {
        Cell::Int(was) => *was = number,
        _ => set_any(cells, place, number),
    }
}

#[inline(never)]
fn set_any(cells: &mut [Cell], place: usize, number: i64)
    requires { place < length cells.old }
    ensures { cells.new ≡ slice_set cells.old place (cell.Int number) }
{
    give_up(mem::replace(&mut cells[place], Cell::Int(number)));
}

/// Whether there is nothing in a cell.
#[inline(always)]
pub fn is_empty(cell: &Cell) -> bool {
    match cell {
        Cell::Empty => true,
        _ => false,
    }
}

#[inline(always)]
fn is_scalar(cell: &Cell) -> bool {
    match cell {
        Cell::Int(_) | Cell::Empty | Cell::Bool(_) => true,
        _ => false,
    }
}

#[inline(always)]
fn lay_over(cells: &mut Vec<Cell>, place: usize, cell: Cell)
    requires { place < length cells.old.items }
    ensures here { heap_of cells.new.items place ≡ held cell }
    ensures others { (q : ℕ) → (q ≡ place → ⊥) → heap_of cells.new.items q ≡ heap_of cells.old.items q }
    ensures size { length cells.new.items ≡ length cells.old.items }
{
    let before = mem::replace(&mut cells[place], cell);
    let_go(before);
}

#[inline(always)]
fn lay_apart(cells: &mut Vec<Cell>, place: usize, cell: Cell)
    requires { place < length cells.old.items }
    ensures here { heap_of cells.new.items place ≡ held cell }
    ensures others { (q : ℕ) → (q ≡ place → ⊥) → heap_of cells.new.items q ≡ heap_of cells.old.items q }
    ensures size { length cells.new.items ≡ length cells.old.items }
{
    lay_any(cells, place, cell);
}

#[inline(never)]
fn lay_any(cells: &mut Vec<Cell>, place: usize, cell: Cell)
    requires { place < length cells.old.items }
    ensures here { heap_of cells.new.items place ≡ held cell }
    ensures others { (q : ℕ) → (q ≡ place → ⊥) → heap_of cells.new.items q ≡ heap_of cells.old.items q }
    ensures size { length cells.new.items ≡ length cells.old.items }
{
    let before = mem::replace(&mut cells[place], cell);
    give_up(before);
}

/// Lets what a cell had go, which is a scalar as a rule.
#[inline(always)]
fn let_go(cell: Cell) {
    match cell {
        Cell::Int(_) => {}
        Cell::Empty => {}
        Cell::Bool(_) => {}
        other => give_up(other),
    }
}

/// What stands at a place, which is left empty, but for a scalar.
#[inline(always)]
pub fn lift(cells: &mut Vec<Cell>, place: usize) -> Cell
    requires { place < length cells.old.items }
    ensures value { held result ≡ heap_of cells.old.items place }
    ensures others { (q : ℕ) → (q ≡ place → ⊥) → heap_of cells.new.items q ≡ heap_of cells.old.items q }
    ensures size { length cells.new.items ≡ length cells.old.items }
{
    match &cells[place] {
        Cell::Int(n) => Cell::Int(*n),
        Cell::Bool(b) => Cell::Bool(*b),
        _ => mem::replace(&mut cells[place], Cell::Empty),
    }
}
