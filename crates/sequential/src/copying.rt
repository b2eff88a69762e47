//! Copies of lists of values.
ghost use Rattle.std.specs.Prelude.{◌≡◌, ◌+◌, ◌<◌, ◌∷◌, [], ◌++◌, true, length, IfOk, IfSome, OnOk};
ghost use Rattle.flow_value.specs.declared.value.Val.TheVariants as val;
ghost use Rattle.flow_value.specs.Leaves.{leaf_count_of_all};
ghost use Rattle.graph_meaning.specs.Carried.{Value};
ghost use Rattle.graph_meaning.specs.Storage.{leaves_of};
ghost use Rattle.run_code.specs.Cells.{At};
ghost use Rattle.run_store.specs.Stored as stored;
ghost use Rattle.run_cells.specs.Held.{held, heap_of};
ghost use Rattle.run_cells.specs.Sights.{seen_value};

use crate::sights::cell_at;
use flow_value::{Array, Items, NoMemory, Val, copy};
use run_cells::{Boxed, Cell, Seen, copied};
use std::alloc::Global;

/// A cell that has a copy of what is seen.
pub fn copy_seen(alloc: Global, seen: Seen<'_>) -> Result<Cell, NoMemory>
    ensures { IfOk result (λ c. held c ≡ stored.Owns (seen_value seen.entry)) }
{
    match seen {
        Seen::Value(Val::Arr(array)) => array_copied(alloc, array),
        _ => copied(alloc, seen),
    }
}

/// A cell that has a copy of the array of integers in a cell of a block, and how many there are.
pub fn integers_copied(
    alloc: Global,
    cells: &[Cell],
    base: usize,
    cell: u32,
) -> Result<Option<(Cell, u64)>, NoMemory>
    requires { base + cell < length cells.now }
    ensures value { IfOk result (λ o. IfSome o (λ p. held p.0 ≡ stored.Owns (stored.seen (heap_of cells.now) base stored.Copies (At cell)))) }
    ensures leaves { IfOk result (λ o. IfSome o (λ p. p.1 ≡ leaves_of (stored.seen (heap_of cells.now) base stored.Copies (At cell)))) }
{
    match array_in(cells, base, cell) {
        Some(array) => integers_in(alloc, array),
        None => Ok(None),
    }
}

#[inline(always)]
fn array_in(cells: &[Cell], base: usize, cell: u32) -> Option<&Array>
    requires { base + cell < length cells.now }
    ensures { IfSome result (λ a. stored.seen (heap_of cells.now) base stored.Copies (At cell) ≡ Value (val.Arr a.now)) }
{
    match cell_at(cells, base + cell as usize) {
        Cell::Owned(boxed) => match boxed.get() {
            Val::Arr(array) => Some(array),
            _ => None,
        },
        _ => None,
    }
}

#[inline(always)]
#[tactic(auto, using(crate::proofs::Leaves::leaves_of_array))]
fn integers_in(alloc: Global, array: &Array) -> Result<Option<(Cell, u64)>, NoMemory>
    ensures value { IfOk result (λ o. IfSome o (λ p. held p.0 ≡ stored.Owns (Value (val.Arr array.now)))) }
    ensures leaves { IfOk result (λ o. IfSome o (λ p. p.1 ≡ leaves_of (Value (val.Arr array.now)))) }
{
    match integers_of(alloc, array.as_slice())? {
        Some(items) => {
            let value = Val::Arr(Array::made(array.lo(), items));
            let boxed = Boxed::new(alloc, value)?;
            Ok(Some((Cell::Owned(boxed), array.len() as u64)))
        }
        None => Ok(None),
    }
}

fn array_copied(alloc: Global, array: &Array) -> Result<Cell, NoMemory>
    ensures { IfOk result (λ c. held c ≡ stored.Owns (Value (val.Arr array.now))) }
{
    let items = copies_of(alloc, array.as_slice())?;
    let value = Val::Arr(Array::made(array.lo(), items));
    Ok(Cell::Owned(Boxed::new(alloc, value)?))
}

/// Equal values, in the same order.
pub fn copies_of(alloc: Global, items: &[Val]) -> Result<Items, NoMemory>
    ensures { IfOk result (λ vs. vs ≡ items.now) }
{
    match integers_of(alloc, items)? {
        Some(copies) => Ok(copies),
        None => copies_of_any(alloc, items),
    }
}

/// The same of integers alone, of which each is a leaf, in a list that nothing else holds while it grows.
fn integers_of(alloc: Global, items: &[Val]) -> Result<Option<Items>, NoMemory>
    ensures items { IfOk result (λ o. IfSome o (λ vs. vs ≡ items.now)) }
    ensures leaves { IfOk result (λ o. IfSome o (λ vs. leaf_count_of_all items.now ≡ length items.now)) }
{
    if !begins_with_integer(items) {
        return Ok(None);
    }
    let mut copies = Items::with_room(alloc, items.len())?;
    for item in items {
        if !is_put(&mut copies, item) {
            return Ok(None);
        }
    }
    Ok(Some(copies))
}

#[inline(always)]
fn begins_with_integer(items: &[Val]) -> bool {
    match items {
        [Val::Int(_), ..] => true,
        _ => false,
    }
}

#[inline(always)]
#[tactic(auto, using(crate::proofs::Leaves::one_leaf_more))]
fn is_put(copies: &mut Items, item: &Val) -> bool
    ensures items { result ≡ true → copies.new ≡ copies.old ++ item.now ∷ [] }
    ensures leaves { result ≡ true → leaf_count_of_all copies.new ≡ leaf_count_of_all copies.old + 1 }
{
    match item {
        Val::Int(n) => match copies.push_in_room(Val::Int(*n)) {
            Ok(()) => true,
            Err(_) => false,
        },
        _ => false,
    }
}

fn copies_of_any(alloc: Global, items: &[Val]) -> Result<Items, NoMemory>
    ensures { IfOk result (λ vs. vs ≡ items.now) }
{
    let mut copies = Items::with_room(alloc, items.len())?;
    for item in items {
        put_copy(alloc, &mut copies, item)?;
    }
    Ok(copies)
}

/// Puts a copy of a value behind others; an integer goes there at once where there is room.
#[inline(always)]
fn put_copy(alloc: Global, copies: &mut Items, item: &Val) -> Result<(), NoMemory>
    ensures { OnOk result (copies.new ≡ copies.old ++ item.now ∷ []) }
{
    match item {
        Val::Int(n) => put_int(copies, *n),
        _ => put_part(alloc, copies, item),
    }
}

#[inline(never)]
fn put_part(alloc: Global, copies: &mut Items, item: &Val) -> Result<(), NoMemory>
    ensures { OnOk result (copies.new ≡ copies.old ++ item.now ∷ []) }
{
    match item {
        Val::Arr(row) => put_row(alloc, copies, row),
        _ => put_any(alloc, copies, item),
    }
}

#[inline(always)]
fn put_int(copies: &mut Items, n: i64) -> Result<(), NoMemory>
    ensures { OnOk result (copies.new ≡ copies.old ++ val.Int n ∷ []) }
{
    copies.add(Val::Int(n))?;
    Ok(())
}

#[inline(never)]
fn put_any(alloc: Global, copies: &mut Items, item: &Val) -> Result<(), NoMemory>
    ensures { OnOk result (copies.new ≡ copies.old ++ item.now ∷ []) }
{
    let value = copy(alloc, item)?;
    copies.add(value)?;
    Ok(())
}

// ---- arrays among them

#[inline(never)]
fn put_row(alloc: Global, copies: &mut Items, row: &Array) -> Result<(), NoMemory>
    ensures { OnOk result (copies.new ≡ copies.old ++ val.Arr row.now ∷ []) }
{
    let items = copies_in_row(alloc, row.as_slice())?;
    copies.add(Val::Arr(Array::made(row.lo(), items)))?;
    Ok(())
}

fn copies_in_row(alloc: Global, items: &[Val]) -> Result<Items, NoMemory>
    ensures { IfOk result (λ vs. vs ≡ items.now) }
{
    match integers_of(alloc, items)? {
        Some(copies) => Ok(copies),
        None => copies_in_any_row(alloc, items),
    }
}

fn copies_in_any_row(alloc: Global, items: &[Val]) -> Result<Items, NoMemory>
    ensures { IfOk result (λ vs. vs ≡ items.now) }
{
    let mut copies = Items::with_room(alloc, items.len())?;
    for item in items {
        put_in_row(alloc, &mut copies, item)?;
    }
    Ok(copies)
}

#[inline(always)]
fn put_in_row(alloc: Global, copies: &mut Items, item: &Val) -> Result<(), NoMemory>
    ensures { OnOk result (copies.new ≡ copies.old ++ item.now ∷ []) }
{
    match item {
        Val::Int(n) => put_int(copies, *n),
        _ => put_any(alloc, copies, item),
    }
}
