//! What is given up. Most of what has parts is a list of integers, of which none needs to be given up
//! by itself.
ghost use Rattle.std.specs.Prelude.{◌≡◌, ◌<◌, ◌≤◌, ℕ, [], take, length};

use crate::storing::is_left;
use flow_value::{Items, Val};
use run_cells::Cell;
use std::mem;

/// Gives up what a cell had.
#[inline(never)]
pub fn give_up(cell: Cell) {
    match cell {
        Cell::Owned(v) => value_goes(v.into_inner()),
        Cell::Many(v) => value_goes(v.into_inner()),
        other => {
            let _given_up = other;
        }
    }
}

fn value_goes(v: Val) {
    match v {
        Val::Arr(a) => items_go(a.into_parts().1),
        Val::Stream(items) => items_go(items),
        other => {
            let _given_up = other;
        }
    }
}

fn items_go(items: Items) {
    let mut left = items.into_vec();
    while let Some(v) = left.pop() {
        match v {
            Val::Int(_) => {}
            other => item_goes(other),
        }
    }
}

#[inline(never)]
fn item_goes(v: Val) {
    match v {
        Val::Arr(a) => row_goes(a.into_parts().1),
        other => {
            let _given_up = other;
        }
    }
}

/// The same of an array among others.
fn row_goes(items: Items) {
    let mut left = items.into_vec();
    while let Some(v) = left.pop() {
        match v {
            Val::Int(_) => {}
            other => part_goes(other),
        }
    }
}

#[inline(never)]
fn part_goes(v: Val) {
    let _given_up = v;
}

// ---- cells, which are scalars as a rule

/// Lets the cells from one on go.
#[inline(always)]
pub fn shrink(cells: &mut Vec<Cell>, keep: usize)
    ensures { cells.new.items ≡ take keep cells.old.items }
{
    while keep < cells.len() {
        let_go(cells.pop());
    }
}

/// Lets what a cell had go, which is a scalar as a rule.
#[inline(always)]
fn let_go(last: Option<Cell>) {
    match last {
        Some(
            Cell::Empty
            | Cell::Error(_)
            | Cell::Int(_)
            | Cell::Bool(_)
            | Cell::Char(_)
            | Cell::Null
            | Cell::UnionInt(_, _),
        ) => {}
        other => let_any_go(other),
    }
}

#[inline(never)]
fn let_any_go(last: Option<Cell>) {
    let _any = last;
}

/// Empties a list of cells.
#[inline(always)]
pub fn emptied(cells: &mut Vec<Cell>)
    ensures { cells.new.items ≡ [] }
{
    shrink(cells, 0);
}

/// Gives up what so many cells from one on own, if they may own anything.
#[inline(always)]
pub fn clear(cells: &mut Vec<Cell>, base: usize, room: u32, owns: bool)
    ensures low { take base cells.new.items ≡ take base cells.old.items }
    ensures size { length cells.new.items ≡ length cells.old.items }
{
    if owns {
        clear_all(cells, base, room);
    }
}

#[inline(never)]
fn clear_all(cells: &mut Vec<Cell>, base: usize, room: u32)
    ensures low { take base cells.new.items ≡ take base cells.old.items }
    ensures size { length cells.new.items ≡ length cells.old.items }
{
    let end = cells.len().min(base.saturating_add(room as usize));
    if base < end && own_any(&cells.as_slice()[base..end]) {
        clear_each(cells, base, end);
    }
}

/// Two at a time, for fewer tests of the end.
#[inline(always)]
fn own_any(cells: &[Cell]) -> bool {
    for pair in 0..cells.len() / 2 {
        if !is_left(&cells[2 * pair]) || !is_left(&cells[2 * pair + 1]) {
            return true;
        }
    }
    match cells.last() {
        Some(cell) => !is_left(cell),
        None => false,
    }
}

#[inline(never)]
fn clear_each(cells: &mut Vec<Cell>, base: usize, end: usize)
    requires { end ≤ length cells.old.items }
    ensures low { take base cells.new.items ≡ take base cells.old.items }
    ensures size { length cells.new.items ≡ length cells.old.items }
{
    for place in base..end {
        vacate(cells, place);
    }
}

#[inline(always)]
fn vacate(cells: &mut Vec<Cell>, place: usize)
    requires { place < length cells.old.items }
    ensures low { (n : ℕ) → n ≤ place → take n cells.new.items ≡ take n cells.old.items }
    ensures size { length cells.new.items ≡ length cells.old.items }
{
    if !is_left(&cells[place]) {
        give_up(mem::replace(&mut cells[place], Cell::Empty));
    }
}
