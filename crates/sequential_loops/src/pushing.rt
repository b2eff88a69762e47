//! Integers that go behind a multiple where it stands.
ghost use Rattle.std.specs.Prelude.{◌≡◌, ℕ, ◌<◌, true, false, length};
ghost use Rattle.flow_value.specs.declared.value.Val.TheVariants as val;
ghost use Rattle.graph_meaning.specs.Carried.{Carried, Value};
ghost use Rattle.run_code.specs.Collections.{behind};
ghost use Rattle.run_store.specs.Stored as stored;
ghost use Rattle.run_cells.specs.declared.cell.Cell.TheVariants as cell;
ghost use Rattle.run_cells.specs.Held.{held, heap_of};

use flow_value::Val;
use run_cells::{Boxed, Cell};

/// Puts an integer behind the multiple in a cell, if there is one and memory for one more.
#[inline(always)]
pub fn is_pushed(cells: &mut Vec<Cell>, place: usize, n: i64) -> bool
    requires { place < length cells.old.items }
    ensures put { result ≡ true → (m : Carried) → heap_of cells.old.items place ≡ stored.Owns m → heap_of cells.new.items place ≡ stored.Owns (behind m (Value (val.Int n))) }
    ensures none { result ≡ false → (q : ℕ) → heap_of cells.new.items q ≡ heap_of cells.old.items q }
    ensures others { (q : ℕ) → (q ≡ place → ⊥) → heap_of cells.new.items q ≡ heap_of cells.old.items q }
    ensures size { length cells.new.items ≡ length cells.old.items }
{
    match &mut cells[place] {
        Cell::Many(stream) => is_behind(stream, n),
        _ => false,
    }
}

#[inline(always)]
fn is_behind(stream: &mut Boxed<Val>, n: i64) -> bool
    ensures put { result ≡ true → (m : Carried) → held (cell.Many stream.old) ≡ stored.Owns m → held (cell.Many stream.new) ≡ stored.Owns (behind m (Value (val.Int n))) }
    ensures none { result ≡ false → stream.new ≡ stream.old }
{
    is_put(stream.get_mut(), n)
}

#[inline(never)]
fn is_put(multiple: &mut Val, n: i64) -> bool
    ensures put { result ≡ true → (m : Carried) → held (cell.Many multiple.old) ≡ stored.Owns m → held (cell.Many multiple.new) ≡ stored.Owns (behind m (Value (val.Int n))) }
    ensures none { result ≡ false → multiple.new ≡ multiple.old }
{
    match multiple {
        Val::Stream(items) => match items.push_in_room(Val::Int(n)) {
            Ok(_) => true,
            Err(_) => false,
        },
        _ => false,
    }
}
