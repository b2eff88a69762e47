//! Rows that give multiples.
ghost use Rattle.std.specs.Prelude.{◌≡◌, ◌≤◌, ◌≤ℤ◌, ◌+ℤ◌, ◌-ℤ◌, ◌∷◌, [], ℕ, pos, map, length, IfOk};
ghost use Rattle.flow_value.specs.Lent.{operand_value};
ghost use Rattle.value_ops.specs.Aggregates.{natural};
ghost use Rattle.value_ops.specs.Given.{values_in};
ghost use Rattle.graph_meaning.specs.NodeValues.{rising, range_of, range, scatter_of};
ghost use Rattle.node_ops.specs.Operands.{output_value};
ghost use Rattle.node_ops.specs.Rows.{single_value, row_values};

use crate::operands::{sole, values};
use crate::row::{Row, Single};
use flow_value::{Cause, Items, MOST_ELEMENTS, NoMemory, Operand, Outputs, Val, copy_all};
use std::alloc::Global;

/// The integers from a bound to a bound: node 142.
pub fn range(alloc: Global, ins: &mut [Operand<'_>]) -> Result<Val, NoMemory>
    ensures { IfOk result (λ v. v ≡ single_value Single.Range (map operand_value ins.old)) }
{
    let bounds = values(alloc, ins)?;
    match bounds.as_slice() {
        [lo, hi] => range_between(alloc, lo, hi),
        _ => Ok(Val::Err(Cause::Explicit)),
    }
}

fn range_between(alloc: Global, lo: &Val, hi: &Val) -> Result<Val, NoMemory>
    ensures { IfOk result (λ v. v ≡ output_value (range_of (lo.now ∷ hi.now ∷ []))) }
{
    match (lo, hi) {
        (Val::Int(lo), Val::Int(hi)) => range_from(alloc, *lo, *hi),
        (Val::Err(cause), _) => Ok(Val::Err(*cause)),
        (_, Val::Err(cause)) => Ok(Val::Err(*cause)),
        _ => Ok(Val::Err(Cause::Explicit)),
    }
}

fn range_from(alloc: Global, lo: i64, hi: i64) -> Result<Val, NoMemory>
    ensures { IfOk result (λ v. v ≡ output_value (range lo hi)) }
{
    let count = room(lo, hi);
    if count > MOST_ELEMENTS as i128 {
        return Ok(Val::Err(Cause::Size));
    }
    Ok(Val::Stream(rising_from(alloc, lo, natural_of(count))?))
}

/// How many places there are from `lo` to `hi`, or less than 0 where `hi` is less than `lo - 1`.
fn room(lo: i64, hi: i64) -> i128
    ensures { result ≡ (hi +ℤ pos 1) -ℤ lo }
{
    i128::from(hi) + 1 - i128::from(lo)
}

/// A whole number from 0 on, and 0 below.
fn natural_of(z: i128) -> usize
    requires { z ≤ℤ pos 18446744073709551615 }
    ensures { result ≡ natural z }
{
    if z < 0 { 0 } else { z as usize }
}

/// So many integers, rising from the first, of which the last fits 64 signed bits.
fn rising_from(alloc: Global, lo: i64, count: usize) -> Result<Items, NoMemory>
    requires { (lo +ℤ pos count) ≤ℤ pos 9223372036854775808 }
    ensures { IfOk result (λ vs. vs ≡ rising lo count) }
{
    let mut items = Items::with_room(alloc, count)?;
    for place in 0..count {
        items.add(Val::Int((i128::from(lo) + place as i128) as i64))?;
    }
    Ok(items)
}

/// The elements of an array or stream, and their indices: node 114.
pub fn scatter(alloc: Global, ins: &[Operand<'_>]) -> Result<Outputs, NoMemory>
    ensures { IfOk result (λ outs. outs ≡ row_values Row.Scattered (map operand_value ins.now)) }
{
    match sole(ins) {
        Some(a) => scatter_one(alloc, a),
        None => errors(alloc, Cause::Explicit),
    }
}

fn scatter_one(alloc: Global, a: &Val) -> Result<Outputs, NoMemory>
    ensures { IfOk result (λ outs. outs ≡ map output_value (scatter_of (a.now ∷ []))) }
{
    match a {
        Val::Arr(a) => scatter_items(alloc, a.as_slice(), a.lo()),
        Val::Stream(items) => scatter_items(alloc, items.as_slice(), 1),
        Val::Err(cause) => errors(alloc, *cause),
        _ => errors(alloc, Cause::Explicit),
    }
}

fn scatter_items(alloc: Global, items: &[Val], lo: i64) -> Result<Outputs, NoMemory>
    requires { (lo +ℤ pos (length items.now)) ≤ℤ pos 9223372036854775808 }
    ensures { IfOk result (λ outs. outs ≡ Val.Stream items.now ∷ Val.Stream (rising lo (length items.now)) ∷ []) }
{
    let elements = copy_all(alloc, items)?;
    let indices = rising_from(alloc, lo, items.len())?;
    two(alloc, Val::Stream(elements), Val::Stream(indices))
}

fn errors(alloc: Global, cause: Cause) -> Result<Outputs, NoMemory>
    ensures { IfOk result (λ outs. outs ≡ Val.Err cause ∷ Val.Err cause ∷ []) }
{
    two(alloc, Val::Err(cause), Val::Err(cause))
}

fn two(alloc: Global, first: Val, second: Val) -> Result<Outputs, NoMemory>
    ensures { IfOk result (λ outs. outs ≡ first ∷ second ∷ []) }
{
    let mut outs = Outputs::with_room(alloc, 2)?;
    outs.add(first)?;
    outs.add(second)?;
    Ok(outs)
}
