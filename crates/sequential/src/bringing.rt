//! What is brought to a cell.
ghost use Rattle.std.specs.Prelude.{◌≡◌, ◌-◌, ◌+◌, true, length, IfOk, IfSome, OnOk};
ghost use Rattle.graph_meaning.specs.Carried.{Carried};
ghost use Rattle.graph_meaning.specs.Storage.{capped, leaves_of};
ghost use Rattle.run_store.specs.Stored as stored;
ghost use Rattle.run_fuller.specs.Fuller.{IsWithin};
ghost use Rattle.run_cells.specs.Held.{held, heap_of};
ghost use Rattle.run_cells.specs.Sights.{seen_value};
ghost use Rattle.step_code.specs.Reading.{operand_in, mode_in};
ghost use Rattle.sequential.specs.Inside.{IsInside};
ghost use Rattle.sequential.specs.Bringing.{IsBrought};

use crate::copying::copy_seen;
use crate::sights::{direct, sight};
use flow_value::NoMemory;
use run_cells::{Cell, Seen, leaves_seen};
use std::alloc::Global;
use std::mem;
use step_code::{Code, Operand};

/// What a step brings of an operand: a copy, or what leaves its cell. What is copied by its mode is
/// added to the copies.
#[inline(always)]
pub fn brought(
    alloc: Global,
    code: &Code,
    cells: &mut Vec<Cell>,
    base: usize,
    from: Operand,
    copies: &mut u64,
) -> Result<Cell, NoMemory>
    requires { IsInside code.now (length cells.old.items - base) from }
    ensures value { IfOk result (λ c. IsBrought code.now cells.old.items base from c) }
    ensures left { IsWithin (stored.left_by base (mode_in code.now from) (operand_in code.now from) (heap_of cells.old.items)) (heap_of cells.new.items) }
    ensures size { length cells.new.items ≡ length cells.old.items }
    ensures copies { OnOk result (copies.new ≡ capped (copies.old + stored.copied_as (mode_in code.now from) (stored.seen (heap_of cells.old.items) base (mode_in code.now from) (operand_in code.now from)))) }
{
    let _in_range = *copies;
    match looked(code, cells.as_slice(), base, from) {
        Some(cell) => Ok(cell),
        None => match from {
            Operand::Takes(_) => any_brought(alloc, code, cells, base, from, copies),
            _ => brought_apart(alloc, code, cells, base, from, copies),
        },
    }
}

/// The same of what is neither taken nor looked at in a cell, or no integer or boolean.
#[inline(never)]
fn brought_apart(
    alloc: Global,
    code: &Code,
    cells: &mut Vec<Cell>,
    base: usize,
    from: Operand,
    copies: &mut u64,
) -> Result<Cell, NoMemory>
    requires { IsInside code.now (length cells.old.items - base) from }
    ensures value { IfOk result (λ c. IsBrought code.now cells.old.items base from c) }
    ensures left { IsWithin (stored.left_by base (mode_in code.now from) (operand_in code.now from) (heap_of cells.old.items)) (heap_of cells.new.items) }
    ensures size { length cells.new.items ≡ length cells.old.items }
    ensures copies { OnOk result (copies.new ≡ capped (copies.old + stored.copied_as (mode_in code.now from) (stored.seen (heap_of cells.old.items) base (mode_in code.now from) (operand_in code.now from)))) }
{
    let _in_range = *copies;
    match plain(code, cells.as_slice(), base, from) {
        Some(cell) => Ok(cell),
        None => any_brought(alloc, code, cells, base, from, copies),
    }
}

/// The same of a value of any kind.
#[inline(always)]
pub fn any_brought(
    alloc: Global,
    code: &Code,
    cells: &mut Vec<Cell>,
    base: usize,
    from: Operand,
    copies: &mut u64,
) -> Result<Cell, NoMemory>
    requires { IsInside code.now (length cells.old.items - base) from }
    ensures value { IfOk result (λ c. IsBrought code.now cells.old.items base from c) }
    ensures left { IsWithin (stored.left_by base (mode_in code.now from) (operand_in code.now from) (heap_of cells.old.items)) (heap_of cells.new.items) }
    ensures size { length cells.new.items ≡ length cells.old.items }
    ensures copies { OnOk result (copies.new ≡ capped (copies.old + stored.copied_as (mode_in code.now from) (stored.seen (heap_of cells.old.items) base (mode_in code.now from) (operand_in code.now from)))) }
{
    let _in_range = *copies;
    match from {
        Operand::Takes(cell) => Ok(mem::replace(&mut cells[base + cell as usize], Cell::Empty)),
        _ => copy_brought(alloc, code, cells, base, from, copies),
    }
}

/// The same, a copy as a rule.
#[inline(never)]
fn copy_brought(
    alloc: Global,
    code: &Code,
    cells: &mut Vec<Cell>,
    base: usize,
    from: Operand,
    copies: &mut u64,
) -> Result<Cell, NoMemory>
    requires { IsInside code.now (length cells.old.items - base) from }
    ensures value { IfOk result (λ c. IsBrought code.now cells.old.items base from c) }
    ensures left { IsWithin (stored.left_by base (mode_in code.now from) (operand_in code.now from) (heap_of cells.old.items)) (heap_of cells.new.items) }
    ensures size { length cells.new.items ≡ length cells.old.items }
    ensures copies { OnOk result (copies.new ≡ capped (copies.old + stored.copied_as (mode_in code.now from) (stored.seen (heap_of cells.old.items) base (mode_in code.now from) (operand_in code.now from)))) }
{
    let _in_range = *copies;
    match from {
        Operand::Takes(cell) => Ok(mem::replace(&mut cells[base + cell as usize], Cell::Empty)),
        Operand::Copies(_) => counted(alloc, sight(code, cells.as_slice(), base, from), copies),
        Operand::CopiesOf(_) => counted(alloc, sight(code, cells.as_slice(), base, from), copies),
        Operand::Literal(_) => copy_of(alloc, code, cells.as_slice(), base, from),
        Operand::Looks(_) => copy_of(alloc, code, cells.as_slice(), base, from),
        Operand::LooksAt(_) => copy_of(alloc, code, cells.as_slice(), base, from),
    }
}

/// An integer or a boolean that is looked at in a cell.
#[inline(always)]
pub fn looked(code: &Code, cells: &[Cell], base: usize, from: Operand) -> Option<Cell>
    requires { IsInside code.now (length cells.now - base) from }
    ensures value { IfSome result (λ c. held c ≡ stored.Owns (stored.seen (heap_of cells.now) base (mode_in code.now from) (operand_in code.now from))) }
    ensures none { IfSome result (λ c. (k : Carried) → stored.copied_as (mode_in code.now from) k ≡ 0) }
{
    match from {
        Operand::Looks(_) => plain_in(code, cells, base, from),
        _ => None,
    }
}

/// An integer or a boolean that stands in a cell, where bringing it copies nothing.
#[inline(always)]
pub fn plain(code: &Code, cells: &[Cell], base: usize, from: Operand) -> Option<Cell>
    requires { IsInside code.now (length cells.now - base) from }
    ensures value { IfSome result (λ c. held c ≡ stored.Owns (stored.seen (heap_of cells.now) base (mode_in code.now from) (operand_in code.now from))) }
    ensures none { IfSome result (λ c. (k : Carried) → stored.copied_as (mode_in code.now from) k ≡ 0) }
{
    match from {
        Operand::Looks(_) | Operand::Takes(_) => plain_in(code, cells, base, from),
        Operand::Literal(_) => plain_in(code, cells, base, from),
        _ => None,
    }
}

#[inline(always)]
fn plain_in(code: &Code, cells: &[Cell], base: usize, from: Operand) -> Option<Cell>
    requires { IsInside code.now (length cells.now - base) from }
    ensures { IfSome result (λ c. held c ≡ stored.Owns (stored.seen (heap_of cells.now) base (mode_in code.now from) (operand_in code.now from))) }
{
    match direct(code, cells, base, from) {
        Some(Cell::Int(n)) => Some(Cell::Int(*n)),
        Some(Cell::Bool(b)) => Some(Cell::Bool(*b)),
        _ => None,
    }
}

/// A copy of what an operand is.
fn copy_of(
    alloc: Global,
    code: &Code,
    cells: &[Cell],
    base: usize,
    from: Operand,
) -> Result<Cell, NoMemory>
    requires { IsInside code.now (length cells.now - base) from }
    ensures { IfOk result (λ c. held c ≡ stored.Owns (stored.seen (heap_of cells.now) base (mode_in code.now from) (operand_in code.now from))) }
{
    copy_seen(alloc, sight(code, cells, base, from))
}

fn counted(alloc: Global, seen: Seen<'_>, copies: &mut u64) -> Result<Cell, NoMemory>
    ensures value { IfOk result (λ c. held c ≡ stored.Owns (seen_value seen.entry)) }
    ensures copies { copies.new ≡ capped (copies.old + leaves_of (seen_value seen.entry)) }
{
    *copies = copies.saturating_add(leaves_seen(seen));
    copy_seen(alloc, seen)
}
