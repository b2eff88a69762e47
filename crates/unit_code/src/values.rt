//! Arguments and results of runs, as values.
ghost use Rattle.std.specs.Prelude.{◌≡◌, map, IfOk, IfErr};
ghost use Rattle.flow_value.specs.declared.value.Val.TheViews.{out-Val};
ghost use Rattle.graph_meaning.specs.Carried.{Value, val_of};
ghost use Rattle.node_ops.specs.Operands.{multiple_in};
ghost use Rattle.run_store.specs.Stored as stored;
ghost use Rattle.run_cells.specs.Held.{held};
ghost use Rattle.unit_whole.specs.Agrees.{owned_all};

use flow_value::{Cause, Items, NoMemory, Val};
use run_cells::{Cell, cell_of, union_of};
use std::alloc::Global;

/// Cells that own these values.
pub fn cells_of(alloc: Global, values: Items) -> Result<Vec<Cell>, NoMemory>
    ensures { IfOk result (λ cs. map held cs.items ≡ map stored.Owns (map Value values)) }
{
    let mut cells = Vec::new(alloc);
    let mut left = values;
    while let Some(value) = left.take_first() {
        cells.push(cell_of(alloc, value)?)?;
    }
    Ok(cells)
}

/// The values that these cells own, where values are wanted.
pub fn values_of(alloc: Global, cells: Vec<Cell>) -> Result<Items, NoMemory>
    ensures { IfOk result (λ vs. vs ≡ map val_of (owned_all cells.items)) }
{
    let mut values = Items::with_room(alloc, cells.len())?;
    for cell in cells {
        values.add(value_of(alloc, cell)?)?;
    }
    Ok(values)
}

fn value_of(alloc: Global, cell: Cell) -> Result<Val, NoMemory>
    ensures { IfOk result (λ v. v ≡ val_of (stored.owned_in (held cell))) }
{
    match cell {
        Cell::Error(cause) => Ok(Val::Err(cause)),
        Cell::Int(n) => Ok(Val::Int(n)),
        Cell::Bool(b) => Ok(Val::Bool(b)),
        Cell::Char(c) => Ok(Val::Char(c)),
        Cell::Null => Ok(Val::Null),
        Cell::UnionInt(tag, n) => union_of(alloc, tag, n),
        Cell::Owned(v) => Ok(v.into_inner()),
        Cell::Many(v) => Ok(single(v.into_inner())),
        Cell::Spoiled(cause) => Ok(Val::Err(cause)),
        _ => Ok(Val::Err(Cause::Explicit)),
    }
}

// a multiple of values is no value
fn single(v: Val) -> Val
    ensures { result ≡ val_of (multiple_in v (out-Val v)) }
{
    match v {
        Val::Stream(_) => Val::Err(Cause::Explicit),
        v => v,
    }
}
