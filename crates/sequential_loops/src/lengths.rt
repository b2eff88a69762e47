//! How long multiples are.
ghost use Rattle.std.specs.Prelude.{◌≡◌, ◌-◌, ◌<◌, ◌^◌, true, length, None};
ghost use Rattle.flow_value.specs.declared.value.Val.TheViews.{out-Val};
ghost use Rattle.node_ops.specs.Operands.{multiple_in};
ghost use Rattle.graph_meaning.specs.Forms.{spoiled, first_spoiled, items, places_of, are_as_long};
ghost use Rattle.run_store.specs.Stored as stored;
ghost use Rattle.run_cells.specs.Held.{heap_of, rising_in};
ghost use Rattle.run_cells.specs.Sights.{seen_value};
ghost use Rattle.step_code.specs.Reading.{operand_in, mode_in};
ghost use Rattle.sequential.specs.Inside.{IsInside};
ghost use Rattle.sequential.specs.Loading.{AreInside, seen_of};
ghost use Rattle.sequential_loops.specs.Spreading.{all_long};

use flow_value::{Cause, Val};
use run_cells::{Cell, Seen};
use sequential::{direct, operand_at, sight};
use step_code::{Code, Operand};

/// How many elements a multiple has.
pub fn places_in(seen: Seen<'_>) -> usize
    ensures places { result ≡ length (items (seen_value seen.entry)) }
    ensures few { result < 2 ^ 63 }
{
    match seen {
        Seen::Elements(values) => values.len(),
        Seen::Rising(many, lo) => risen(many, lo),
        _ => 0,
    }
}

fn risen(many: u32, lo: i64) -> usize
    ensures places { result ≡ length (rising_in lo many) }
    ensures few { result < 2 ^ 63 }
{
    let _first = lo;
    many as usize
}

/// How many elements the multiple in a box has.
#[inline(always)]
fn listed(v: &Val) -> usize
    ensures places { result ≡ length (items (multiple_in v.now (out-Val v.now))) }
    ensures few { result < 2 ^ 63 }
{
    match v {
        Val::Stream(values) => values.as_slice().len(),
        _ => 0,
    }
}

/// How many elements the first one of these multiples has.
#[inline(always)]
pub fn first_places(code: &Code, cells: &[Cell], base: usize, operands: &[Operand]) -> usize
    requires { AreInside code.now (length cells.now - base) operands.now }
    ensures places { result ≡ places_of (seen_of code.now base (heap_of cells.now) operands.now) }
    ensures few { result < 2 ^ 63 }
{
    match operands {
        [] => 0,
        [first, ..] => long_of(code, cells, base, *first),
    }
}

#[inline(always)]
fn long_of(code: &Code, cells: &[Cell], base: usize, from: Operand) -> usize
    requires { IsInside code.now (length cells.now - base) from }
    ensures places { result ≡ length (items (stored.seen (heap_of cells.now) base (mode_in code.now from) (operand_in code.now from))) }
    ensures few { result < 2 ^ 63 }
{
    match direct(code, cells, base, from) {
        Some(Cell::Range(many, lo)) => risen(*many, *lo),
        Some(Cell::Many(v)) => listed(v.get()),
        _ => places_seen(code, cells, base, from),
    }
}

#[inline(never)]
fn places_seen(code: &Code, cells: &[Cell], base: usize, from: Operand) -> usize
    requires { IsInside code.now (length cells.now - base) from }
    ensures places { result ≡ length (items (stored.seen (heap_of cells.now) base (mode_in code.now from) (operand_in code.now from))) }
    ensures few { result < 2 ^ 63 }
{
    places_in(sight(code, cells, base, from))
}

/// The cause of the first multiple that is an error.
pub fn first_cause(code: &Code, cells: &[Cell], base: usize, operands: &[Operand]) -> Option<Cause>
    requires { AreInside code.now (length cells.now - base) operands.now }
    ensures { result ≡ first_spoiled (seen_of code.now base (heap_of cells.now) operands.now) }
{
    for place in 0..operands.len() {
        let operand = operand_at(operands, place);
        match cause_of(code, cells, base, operand) {
            Some(cause) => return Some(cause),
            None => {}
        }
    }
    None
}

/// The cause of a multiple, if it is an error.
#[inline(always)]
fn cause_of(code: &Code, cells: &[Cell], base: usize, from: Operand) -> Option<Cause>
    requires { IsInside code.now (length cells.now - base) from }
    ensures { result ≡ spoiled (stored.seen (heap_of cells.now) base (mode_in code.now from) (operand_in code.now from)) }
{
    if is_sound(code, cells, base, from) {
        None
    } else {
        cause_in(sight(code, cells, base, from))
    }
}

/// Whether it is seen at once that a multiple is no error.
#[inline(always)]
fn is_sound(code: &Code, cells: &[Cell], base: usize, from: Operand) -> bool
    requires { IsInside code.now (length cells.now - base) from }
    ensures { result ≡ true → spoiled (stored.seen (heap_of cells.now) base (mode_in code.now from) (operand_in code.now from)) ≡ None }
{
    match direct(code, cells, base, from) {
        Some(Cell::Range(_, _)) => true,
        Some(Cell::Many(v)) => is_stream(v.get()),
        _ => false,
    }
}

#[inline(always)]
fn is_stream(v: &Val) -> bool
    ensures { result ≡ true → spoiled (multiple_in v.now (out-Val v.now)) ≡ None }
{
    match v {
        Val::Stream(_) => true,
        _ => false,
    }
}

fn cause_in(seen: Seen<'_>) -> Option<Cause>
    ensures { result ≡ spoiled (seen_value seen.entry) }
{
    match seen {
        Seen::Spoiled(cause) => Some(cause),
        _ => None,
    }
}

/// Whether all have as many elements as the first one.
pub fn are_as_long(code: &Code, cells: &[Cell], base: usize, operands: &[Operand]) -> bool
    requires { AreInside code.now (length cells.now - base) operands.now }
    ensures { result ≡ are_as_long (seen_of code.now base (heap_of cells.now) operands.now) }
{
    let places = first_places(code, cells, base, operands);
    all_of(code, cells, base, operands, places)
}

fn all_of(code: &Code, cells: &[Cell], base: usize, operands: &[Operand], places: usize) -> bool
    requires { AreInside code.now (length cells.now - base) operands.now }
    ensures { result ≡ all_long places (seen_of code.now base (heap_of cells.now) operands.now) }
{
    for place in 0..operands.len() {
        let operand = operand_at(operands, place);
        let found = long_of(code, cells, base, operand);
        if found != places {
            return false;
        }
    }
    true
}
