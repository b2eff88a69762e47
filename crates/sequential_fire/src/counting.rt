//! What the firing of a simple node copies.
ghost use Rattle.std.specs.Prelude.{◌≡◌, ◌-◌, ◌*◌, ◌∷◌, [], length, get_or, true, if◌then◌else◌, IfOk};
ghost use Rattle.flow_value.specs.declared.value.Val.TheViews.{out-Val};
ghost use Rattle.graph_meaning.specs.Storage.{capped, leaves_of, leaves_at, kept_of, elements_in, elements_of};
ghost use Rattle.run_store.specs.Stored as stored;
ghost use Rattle.run_cells.specs.Held.{held, heap_of};
ghost use Rattle.run_cells.specs.Sights.{seen_value};
ghost use Rattle.step_code.specs.Reading.{operand_in, mode_in, so_many};
ghost use Rattle.step_code.specs.Laid.{copied_at};
ghost use Rattle.sequential.specs.Agrees.{owned_all};
ghost use Rattle.sequential.specs.Inside.{IsInside};
ghost use Rattle.sequential.specs.Loading.{AreInside, modes_of, seen_of};

use crate::kept::{kept_all, kept_by};
use flow_value::{NoMemory, Val};
use run_cells::{Cell, Seen, leaves_seen, owned_by};
use sequential::{operand_at, sight};
use std::alloc::Global;
use step_code::{Code, Counted, Operand};

/// The leaves that a firing copies, by its operands and the cells of its outputs, or the greatest
/// number of 64 bits past that.
pub fn added(
    alloc: Global,
    code: &Code,
    cells: &[Cell],
    base: usize,
    operands: &[Operand],
    counted: Counted,
    width: u32,
    made: &[Cell],
) -> Result<u64, NoMemory>
    requires { AreInside code.now (length cells.now - base) operands.now }
    ensures { IfOk result (λ n. n ≡ capped (copied_at code.now counted (modes_of code.now operands.now) width (seen_of code.now base (heap_of cells.now) operands.now) (owned_all made.now))) }
{
    match counted {
        Counted::Nothing => Ok(0),
        Counted::Operands => Ok(copied(code, cells, base, operands)),
        Counted::Outputs(bits) => Ok(marked(marks_in(code, bits, width), made)),
        Counted::Elements => kept_behind(alloc, code, cells, base, operands),
        Counted::Last => last(alloc, code, cells, base, operands, made),
        Counted::Filling => Ok(filling(code, cells, base, operands, made)),
    }
}

/// The leaves of the operands that are copied.
pub fn copied(code: &Code, cells: &[Cell], base: usize, operands: &[Operand]) -> u64
    requires { AreInside code.now (length cells.now - base) operands.now }
    ensures { result ≡ capped (stored.copied (modes_of code.now operands.now) (seen_of code.now base (heap_of cells.now) operands.now)) }
{
    let mut sum: u64 = 0;
    for place in 0..operands.len() {
        let operand = operand_at(operands, place);
        sum = sum.saturating_add(copied_of(code, cells, base, operand));
    }
    sum
}

fn copied_of(code: &Code, cells: &[Cell], base: usize, from: Operand) -> u64
    requires { IsInside code.now (length cells.now - base) from }
    ensures { result ≡ capped (stored.copied_as (mode_in code.now from) (stored.seen (heap_of cells.now) base (mode_in code.now from) (operand_in code.now from))) }
{
    match from {
        Operand::Literal(_) => 0,
        Operand::Looks(_) => 0,
        Operand::Copies(_) => leaves_seen(sight(code, cells, base, from)),
        Operand::Takes(_) => 0,
        Operand::LooksAt(_) => 0,
        Operand::CopiesOf(_) => leaves_seen(sight(code, cells, base, from)),
    }
}

/// So many marks from one on, as far as there are any.
#[tactic(auto, using(crate::proofs::Counts::none_from, crate::proofs::Counts::all_from))]
#[inline(always)]
pub fn marks_in(code: &Code, first: u32, many: u32) -> &[bool]
    ensures { result.now ≡ so_many first many code.now.marks }
{
    let marks = code.marks.as_slice();
    let first = first as usize;
    let many = many as usize;
    if first >= marks.len() {
        return &[];
    }
    if many >= marks.len() - first {
        return &marks[first..];
    }
    &marks[first..first + many]
}

/// The leaves of the outputs that are marked, and of those behind the last mark.
fn marked(marks: &[bool], made: &[Cell]) -> u64
    ensures { result ≡ capped (leaves_at (λ port. get_or marks.now (port - 1) true) 1 (owned_all made.now)) }
{
    let mut sum: u64 = 0;
    for place in 0..made.len() {
        sum = sum.saturating_add(marked_one(mark_at(marks, place), &made[place]));
    }
    sum
}

#[inline(always)]
pub fn mark_at(marks: &[bool], place: usize) -> bool
    ensures { result ≡ get_or marks.now place true }
{
    match marks.get(place) {
        Some(mark) => *mark,
        None => true,
    }
}

fn marked_one(mark: bool, cell: &Cell) -> u64
    ensures { result ≡ capped (if mark then leaves_of (stored.owned_in (held cell.now)) else 0) }
{
    if mark { leaves_seen(owned_by(cell)) } else { 0 }
}

fn kept_behind(
    alloc: Global,
    code: &Code,
    cells: &[Cell],
    base: usize,
    operands: &[Operand],
) -> Result<u64, NoMemory>
    requires { AreInside code.now (length cells.now - base) operands.now }
    ensures { IfOk result (λ n. n ≡ capped (copied_at code.now Counted.Elements [] 0 (seen_of code.now base (heap_of cells.now) operands.now) [])) }
{
    match operands {
        [] => Ok(0),
        [_, rest @ ..] => kept(alloc, code, cells, base, rest),
    }
}

/// The leaves of the kept elements of a multiple, with or without a mask behind it.
fn kept(
    alloc: Global,
    code: &Code,
    cells: &[Cell],
    base: usize,
    operands: &[Operand],
) -> Result<u64, NoMemory>
    requires { AreInside code.now (length cells.now - base) operands.now }
    ensures { IfOk result (λ n. n ≡ capped (kept_of (seen_of code.now base (heap_of cells.now) operands.now))) }
{
    match operands {
        [] => Ok(0),
        [multiple] => Ok(kept_all(sight(code, cells, base, *multiple))),
        [multiple, mask, ..] => kept_by(
            alloc,
            sight(code, cells, base, *multiple),
            sight(code, cells, base, *mask),
        ),
    }
}

fn last(
    alloc: Global,
    code: &Code,
    cells: &[Cell],
    base: usize,
    operands: &[Operand],
    made: &[Cell],
) -> Result<u64, NoMemory>
    requires { AreInside code.now (length cells.now - base) operands.now }
    ensures { IfOk result (λ n. n ≡ capped (copied_at code.now Counted.Last [] 0 (seen_of code.now base (heap_of cells.now) operands.now) (owned_all made.now))) }
{
    match operands {
        [_] => Ok(marked(&[], made)),
        [] => Ok(0),
        [_, _, ..] => kept(alloc, code, cells, base, operands),
    }
}

fn filling(code: &Code, cells: &[Cell], base: usize, operands: &[Operand], made: &[Cell]) -> u64
    requires { AreInside code.now (length cells.now - base) operands.now }
    ensures { result ≡ capped (copied_at code.now Counted.Filling [] 0 (seen_of code.now base (heap_of cells.now) operands.now) (owned_all made.now)) }
{
    match operands {
        [_, _, value] => times(
            elements(made),
            leaves_seen(sight(code, cells, base, *value)),
        ),
        _ => 0,
    }
}

fn times(many: usize, each: u64) -> u64
    ensures { result ≡ capped (many * each) }
{
    (many as u64).saturating_mul(each)
}

/// How many elements the first output has.
fn elements(made: &[Cell]) -> usize
    ensures { result ≡ elements_of (owned_all made.now) }
{
    match made {
        [] => 0,
        [first, ..] => elements_seen(owned_by(first)),
    }
}

fn elements_seen(seen: Seen<'_>) -> usize
    ensures { result ≡ elements_of (seen_value seen.entry ∷ []) }
{
    match seen {
        Seen::Value(v) => elements_in(v),
        _ => 0,
    }
}

fn elements_in(v: &Val) -> usize
    ensures { result ≡ elements_in (out-Val v.now) }
{
    match v {
        Val::Arr(a) => a.len(),
        Val::Stream(items) => items.len(),
        _ => 0,
    }
}
