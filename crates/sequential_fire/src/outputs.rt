//! The outputs of a simple node, as cells.
ghost use Rattle.std.specs.Prelude.{◌≡◌, ◌-◌, ◌<◌, ◌∷◌, [], length, map, IfOk, OnOk};
ghost use Rattle.flow_value.specs.declared.value.Val.TheViews.{out-Val};
ghost use Rattle.graph_meaning.specs.NodeValues.{Fields, op};
ghost use Rattle.node_ops.specs.Operands.{multiple_in, shape_of};
ghost use Rattle.run_store.specs.Stored as stored;
ghost use Rattle.run_cells.specs.Held.{held, heap_of};
ghost use Rattle.sequential.specs.Loading.{AreInside, seen_of};
ghost use Rattle.sequential_fire.specs.Outputs.{carried_out, AreHeld};

use crate::given::all_given;
use crate::parts::{array_of, record_of, scatter, split};
use crate::ranges::range_of;
use flow_value::{NoMemory, Outputs, Shape, Val};
use if1_graph::Simple;
use node_ops::fire;
use run_cells::{Boxed, Cell, cell_of};
use std::alloc::Global;
use step_code::{Code, Operand};

/// Makes cells of the outputs of a node on operands that are looked at, in a list that is emptied
/// first.
pub fn outputs(
    alloc: Global,
    code: &Code,
    cells: &[Cell],
    base: usize,
    row: Simple,
    shape: Shape,
    operands: &[Operand],
    made: &mut Vec<Cell>,
) -> Result<(), NoMemory>
    requires inside { AreInside code.now (length cells.now - base) operands.now }
    requires ports { length operands.now < 4294967296 }
    ensures { OnOk result (AreHeld made.new.items (op row (shape_of shape) (seen_of code.now base (heap_of cells.now) operands.now))) }
{
    match range_of(code, cells, base, row, operands) {
        Some(cell) => only(cell, made),
        None => other_outputs(alloc, code, cells, base, row, shape, operands, made),
    }
}

fn only(cell: Cell, made: &mut Vec<Cell>) -> Result<(), NoMemory>
    ensures { OnOk result (made.new.items ≡ cell ∷ []) }
{
    made.clear();
    made.push(cell)?;
    Ok(())
}

fn other_outputs(
    alloc: Global,
    code: &Code,
    cells: &[Cell],
    base: usize,
    row: Simple,
    shape: Shape,
    operands: &[Operand],
    made: &mut Vec<Cell>,
) -> Result<(), NoMemory>
    requires inside { AreInside code.now (length cells.now - base) operands.now }
    requires ports { length operands.now < 4294967296 }
    ensures { OnOk result (AreHeld made.new.items (op row (shape_of shape) (seen_of code.now base (heap_of cells.now) operands.now))) }
{
    match (row, shape) {
        (Simple::AScatter, _) => {
            array_outputs(alloc, code, cells, base, row, shape, operands, made)
        }
        (Simple::RElements, Shape::Fields(count)) => {
            field_outputs(alloc, code, cells, base, count, operands, made)
        }
        _ => listed_outputs(alloc, code, cells, base, row, shape, operands, made),
    }
}

fn array_outputs(
    alloc: Global,
    code: &Code,
    cells: &[Cell],
    base: usize,
    row: Simple,
    shape: Shape,
    operands: &[Operand],
    made: &mut Vec<Cell>,
) -> Result<(), NoMemory>
    requires inside { AreInside code.now (length cells.now - base) operands.now }
    requires row { row ≡ Simple.AScatter }
    requires ports { length operands.now < 4294967296 }
    ensures { OnOk result (AreHeld made.new.items (op row (shape_of shape) (seen_of code.now base (heap_of cells.now) operands.now))) }
{
    match array_of(code, cells, base, operands) {
        Some(array) => scatter(alloc, array, made),
        None => listed_outputs(alloc, code, cells, base, row, shape, operands, made),
    }
}

fn field_outputs(
    alloc: Global,
    code: &Code,
    cells: &[Cell],
    base: usize,
    count: u32,
    operands: &[Operand],
    made: &mut Vec<Cell>,
) -> Result<(), NoMemory>
    requires inside { AreInside code.now (length cells.now - base) operands.now }
    requires ports { length operands.now < 4294967296 }
    ensures { OnOk result (AreHeld made.new.items (op Simple.RElements (Fields count) (seen_of code.now base (heap_of cells.now) operands.now))) }
{
    match record_of(code, cells, base, operands) {
        Some(fields) => split(alloc, fields, count, made),
        None => listed_outputs(
            alloc,
            code,
            cells,
            base,
            Simple::RElements,
            Shape::Fields(count),
            operands,
            made,
        ),
    }
}

fn listed_outputs(
    alloc: Global,
    code: &Code,
    cells: &[Cell],
    base: usize,
    row: Simple,
    shape: Shape,
    operands: &[Operand],
    made: &mut Vec<Cell>,
) -> Result<(), NoMemory>
    requires inside { AreInside code.now (length cells.now - base) operands.now }
    requires ports { length operands.now < 4294967296 }
    ensures { OnOk result (AreHeld made.new.items (op row (shape_of shape) (seen_of code.now base (heap_of cells.now) operands.now))) }
{
    let mut ins = all_given(alloc, code, cells, base, row, operands)?;
    let outs = fire(alloc, row, shape, ins.as_mut_slice())?;
    cells_of(alloc, row, outs, made)
}

fn cells_of(alloc: Global, row: Simple, outs: Outputs, made: &mut Vec<Cell>) -> Result<(), NoMemory>
    ensures { OnOk result (AreHeld made.new.items (map (carried_out row) outs)) }
{
    made.clear();
    let mut values = outs.into_vec().into_iter();
    while let Some(value) = values.next() {
        made.push(output_of(alloc, row, value)?)?;
    }
    Ok(())
}

/// A cell with an output of a node.
pub fn output_of(alloc: Global, row: Simple, value: Val) -> Result<Cell, NoMemory>
    ensures { IfOk result (λ c. held c ≡ stored.Owns (carried_out row value)) }
{
    match row {
        Simple::RangeGenerate => multiple(alloc, value),
        Simple::AScatter => multiple(alloc, value),
        _ => cell_of(alloc, value),
    }
}

fn multiple(alloc: Global, value: Val) -> Result<Cell, NoMemory>
    ensures { IfOk result (λ c. held c ≡ stored.Owns (multiple_in value (out-Val value))) }
{
    match value {
        Val::Err(cause) => Ok(Cell::Spoiled(cause)),
        _ => Ok(Cell::Many(Boxed::new(alloc, value)?)),
    }
}
