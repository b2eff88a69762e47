//! Operands that are brought one after another.
ghost use Rattle.std.specs.Prelude.{◌≡◌, ◌-◌, ◌<◌, ◌∷◌, [], ◌++◌, slice_get, length, Some, OnOk};
ghost use Rattle.sequential.specs.Loading.{AreInside, AreApart, Loads};

use crate::bringing::brought;
use crate::giving::emptied;
use flow_value::NoMemory;
use run_cells::Cell;
use std::alloc::Global;
use step_code::{Code, Operand};

/// Brings operands in order to a list, which is emptied first. What one takes, no later one reads.
#[inline(always)]
pub fn load(
    alloc: Global,
    code: &Code,
    cells: &mut Vec<Cell>,
    base: usize,
    operands: &[Operand],
    copies: &mut u64,
    loaded: &mut Vec<Cell>,
) -> Result<(), NoMemory>
    requires inside { AreInside code.now (length cells.old.items - base) operands.now }
    requires apart { AreApart code.now operands.now }
    ensures loads { OnOk result (Loads code.now base operands.now cells.old.items loaded.new.items cells.new.items copies.old copies.new) }
    ensures long { OnOk result (length loaded.new.items ≡ length operands.now) }
    ensures size { length cells.new.items ≡ length cells.old.items }
{
    let _in_range = *copies;
    emptied(loaded);
    for place in 0..operands.len() {
        let operand = operand_at(operands, place);
        let cell = brought(alloc, code, cells, base, operand, copies)?;
        put_behind(loaded, cell)?;
    }
    Ok(())
}

/// Puts a cell behind others; where there is room, nothing is called.
#[inline(always)]
pub fn put_behind(list: &mut Vec<Cell>, cell: Cell) -> Result<(), NoMemory>
    ensures { OnOk result (list.new.items ≡ list.old.items ++ cell ∷ []) }
{
    if list.len() < list.capacity() {
        list.push_reserved(cell);
        Ok(())
    } else {
        list.push(cell)?;
        Ok(())
    }
}

/// The operand at a place.
#[inline(always)]
pub fn operand_at(operands: &[Operand], place: usize) -> Operand
    requires { place < length operands.now }
    ensures { slice_get operands.now place ≡ Some result }
{
    operands[place]
}
