//! Sums of integers that were brought.
ghost use Rattle.std.specs.Prelude.{◌≡◌, ◌+ℤ◌, ◌<◌, ◌∷◌, [], false, slice_get, length, Some, None, IfSome};
ghost use Rattle.flow_value.specs.declared.value.Val.TheViews.{out-Val};
ghost use Rattle.loop_folds.specs.Elements.{error_of, is_no_integer};
ghost use Rattle.loop_folds.specs.Folds.{sum_fold, term_of};
ghost use Rattle.if1_graph.specs.declared.op.Reducer.TheVariants as reducer;
ghost use Rattle.graph_meaning.specs.Carried.{Name};
ghost use Rattle.graph_meaning.specs.NodeValues.{Shape as Told, reduce_of, reduced};
ghost use Rattle.node_ops.specs.Operands.{multiple_in};
ghost use Rattle.sequential_fire.specs.Taking.{IsFiredAs};

use flow_value::{Val, whole};
use if1_graph::{Reducer, Simple, reducer_of};
use run_cells::Cell;

/// What a reduction makes of what these cells own, where that is a sum of integers alone and each sum
/// on the way fits 64 bits.
pub fn summed(row: Simple, loaded: &[Cell]) -> Option<Val>
    ensures { IfSome result (λ v. IsFiredAs row loaded.now v) }
{
    match (row, loaded) {
        (Simple::Reduce(_), [name, multiple]) => sum_of_cells(row, name, multiple),
        _ => None,
    }
}

fn sum_of_cells(row: Simple, name: &Cell, multiple: &Cell) -> Option<Val>
    ensures { IfSome result (λ v. IsFiredAs row (name.now ∷ multiple.now ∷ []) v) }
{
    match (row, name, multiple) {
        (Simple::Reduce(_), Cell::Name(text), Cell::Many(v)) => {
            named_sum(text.get().as_slice(), v.get())
        }
        _ => None,
    }
}

fn named_sum(name: &[u8], v: &Val) -> Option<Val>
    ensures { IfSome result (λ w. (t : Told) → reduce_of t (Name name.now ∷ multiple_in v.now (out-Val v.now) ∷ []) ≡ w) }
{
    match reducer_of(name) {
        Some(Reducer::Sum) => sum_of_multiple(v),
        _ => None,
    }
}

fn sum_of_multiple(v: &Val) -> Option<Val>
    ensures { IfSome result (λ w. (t : Told) → reduced t (Some reducer.Sum) (multiple_in v.now (out-Val v.now) ∷ []) ≡ w) }
{
    match v {
        Val::Stream(items) => sum_of(items.as_slice()),
        _ => None,
    }
}

fn sum_of(items: &[Val]) -> Option<Val>
    ensures { IfSome result (λ w. sum_fold items.now ≡ w) }
{
    let mut sum: i64 = 0;
    for place in 0..items.len() {
        match sum_with(sum, item_at(items, place)) {
            Some(more) => sum = more,
            None => return None,
        }
    }
    Some(whole(i128::from(sum)))
}

#[inline(always)]
fn item_at(items: &[Val], place: usize) -> &Val
    requires { place < length items.now }
    ensures { slice_get items.now place ≡ Some result.now }
{
    &items[place]
}

#[inline(always)]
fn sum_with(sum: i64, item: &Val) -> Option<i64>
    ensures error { IfSome result (λ n. error_of item.now ≡ None) }
    ensures integer { IfSome result (λ n. is_no_integer item.now ≡ false) }
    ensures sum { IfSome result (λ n. n ≡ sum +ℤ term_of item.now) }
{
    match item {
        Val::Int(n) => sum.checked_add(*n),
        _ => None,
    }
}
