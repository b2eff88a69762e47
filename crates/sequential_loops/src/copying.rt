//! Copies of multiples.
ghost use Rattle.std.specs.Prelude.{◌≡◌, IfOk};
ghost use Rattle.flow_value.specs.declared.value.Val.TheViews.{out-Val};
ghost use Rattle.flow_value.specs.declared.value.Val.TheVariants as val;
ghost use Rattle.graph_meaning.specs.Carried.{Value};
ghost use Rattle.node_ops.specs.Operands.{multiple_in};
ghost use Rattle.run_store.specs.Stored as stored;
ghost use Rattle.run_cells.specs.Held.{held};

use flow_value::{Array, NoMemory, Val};
use run_cells::{Boxed, Cell, Seen, copied};
use sequential::copies_of;
use std::alloc::Global;

/// A copy of the multiple in a box.
pub fn multiple_copied(alloc: Global, v: &Val) -> Result<Cell, NoMemory>
    ensures { IfOk result (λ c. held c ≡ stored.Owns (multiple_in v.now (out-Val v.now))) }
{
    match v {
        Val::Stream(items) => listed(alloc, items.as_slice()),
        Val::Err(cause) => Ok(Cell::Spoiled(*cause)),
        _ => copied(alloc, Seen::Value(v)),
    }
}

fn listed(alloc: Global, items: &[Val]) -> Result<Cell, NoMemory>
    ensures { IfOk result (λ c. held c ≡ held (Cell.Many (val.Stream items.now))) }
{
    let stream = Val::Stream(copies_of(alloc, items)?);
    Ok(Cell::Many(Boxed::new(alloc, stream)?))
}

/// A copy of a value.
pub fn value_copied(alloc: Global, v: &Val) -> Result<Cell, NoMemory>
    ensures { IfOk result (λ c. held c ≡ stored.Owns (Value v.now)) }
{
    match v {
        Val::Int(n) => Ok(Cell::Int(*n)),
        Val::Arr(a) => Ok(Cell::Owned(Boxed::new(alloc, array_copied(alloc, a)?)?)),
        _ => copied(alloc, Seen::Value(v)),
    }
}

fn array_copied(alloc: Global, a: &Array) -> Result<Val, NoMemory>
    ensures { IfOk result (λ v. v ≡ val.Arr a.now) }
{
    let items = copies_of(alloc, a.as_slice())?;
    Ok(Val::Arr(Array::made(a.lo(), items)))
}
