//! Ranges of integers, as cells.
ghost use Rattle.std.specs.Prelude.{◌≡◌, ◌-◌, ◌+ℤ◌, ◌-ℤ◌, ◌∷◌, [], pos, true, false, length, IfSome, MatchOption};
ghost use Rattle.flow_value.specs.Bounds.{is_few};
ghost use Rattle.value_ops.specs.Aggregates.{natural};
ghost use Rattle.graph_meaning.specs.Carried.{vals};
ghost use Rattle.graph_meaning.specs.NodeValues.{Shape, op, range, range_of};
ghost use Rattle.run_store.specs.Stored as stored;
ghost use Rattle.run_cells.specs.Held.{held, heap_of};
ghost use Rattle.sequential.specs.Loading.{AreInside, seen_of};
ghost use Rattle.sequential_fire.specs.Outputs.{AreHeld};

use flow_value::Cause;
use if1_graph::Simple;
use run_cells::Cell;
use sequential::integer_at;
use step_code::{Code, Operand};

/// The output of a node that gives the range between two integers that stand in cells; it takes no
/// memory.
pub fn range_of(
    code: &Code,
    cells: &[Cell],
    base: usize,
    row: Simple,
    operands: &[Operand],
) -> Option<Cell>
    requires { AreInside code.now (length cells.now - base) operands.now }
    ensures { IfSome result (λ c. (s : Shape) → AreHeld (c ∷ []) (op row s (seen_of code.now base (heap_of cells.now) operands.now))) }
{
    match row {
        Simple::RangeGenerate => range_on(code, cells, base, operands),
        _ => None,
    }
}

#[tactic(auto, using(crate::proofs::RangeRows::range_is))]
fn range_on(code: &Code, cells: &[Cell], base: usize, operands: &[Operand]) -> Option<Cell>
    requires { AreInside code.now (length cells.now - base) operands.now }
    ensures { IfSome result (λ c. AreHeld (c ∷ []) (range_of (vals (seen_of code.now base (heap_of cells.now) operands.now)) ∷ [])) }
{
    match operands {
        [lo, hi] => {
            let lo = integer_at(code, cells, base, *lo)?;
            let hi = integer_at(code, cells, base, *hi)?;
            Some(rising(lo, hi))
        }
        _ => None,
    }
}

fn rising(lo: i64, hi: i64) -> Cell
    ensures { held result ≡ stored.Owns (range lo hi) }
{
    match few_of(room(lo, hi)) {
        Some(count) => Cell::Range(count, lo),
        None => Cell::Spoiled(Cause::Size),
    }
}

/// How many places there are from `lo` to `hi`, or less than 0 where `hi` is less than `lo - 1`.
fn room(lo: i64, hi: i64) -> i128
    ensures { result ≡ (hi +ℤ pos 1) -ℤ lo }
{
    i128::from(hi) + 1 - i128::from(lo)
}

/// A whole number from 0 on, and 0 below, where it is a number of elements.
#[tactic(auto, using(crate::proofs::RangeRows::few_natural, crate::proofs::RangeRows::many_natural, crate::proofs::RangeRows::no_natural))]
fn few_of(z: i128) -> Option<u32>
    ensures { MatchOption
        result
        (is_few (natural z) ≡ false)
        (λ n. (n ≡ natural z) × (is_few (natural z) ≡ true)) }
{
    if z > 4194304 {
        None
    } else if z < 0 {
        Some(0)
    } else {
        Some(z as u32)
    }
}
