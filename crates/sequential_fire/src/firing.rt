//! Simple nodes of any row.
ghost use Rattle.std.specs.Prelude.{◌≡◌, ◌+◌, ◌-◌, ◌<◌, ◌≤◌, length, IfOk};
ghost use Rattle.step_code.specs.declared.step.Step.TheVariants as step;
ghost use Rattle.step_code.specs.Reading.{listed};
ghost use Rattle.sequential.specs.Agrees.{Does};
ghost use Rattle.sequential.specs.Loading.{AreInside};
ghost use Rattle.sequential_fire.specs.Outputs.{IsWide};

use crate::counting::added;
use crate::outputs::outputs;
use flow_value::{NoMemory, Shape};
use if1_graph::Simple;
use sequential::{Machine, Turn, operands_from, unload};
use std::alloc::Global;
use step_code::{Code, Counted, Written};

/// Fires a simple node of any row on any number of operands, which are looked at: what its outputs
/// store is copied.
#[inline(never)]
pub fn fire_lent(
    machine: &mut Machine,
    alloc: Global,
    code: &Code,
    limit: u64,
    row: Simple,
    written: Written,
    shape: Shape,
    ins: u32,
    many: u32,
    out: u32,
    width: u32,
    kept: u32,
    counted: Counted,
) -> Result<Turn, NoMemory>
    requires place { machine.old.pc < 4294967296 }
    requires listed { ins + many ≤ length code.now.operands }
    requires inside { AreInside code.now (length machine.old.cells.items - machine.old.base) (listed code.now ins many) }
    requires width { IsWide row shape width }
    requires out { (machine.old.base + out) + width ≤ length machine.old.cells.items }
    ensures does { IfOk result (λ t. Does code.now limit (step.Fire row written shape ins many out width kept counted) machine.old t machine.new) }
    ensures cells { length machine.new.cells.items ≡ length machine.old.cells.items }
{
    if machine.fires >= limit {
        return Ok(Turn::Over);
    }
    let operands = operands_from(code, ins, many);
    outputs(
        alloc,
        code,
        machine.cells.as_slice(),
        machine.base,
        row,
        shape,
        operands,
        &mut machine.results,
    )?;
    let copies = added(
        alloc,
        code,
        machine.cells.as_slice(),
        machine.base,
        operands,
        counted,
        width,
        machine.results.as_slice(),
    )?;
    unload(
        &mut machine.cells,
        machine.base + out as usize,
        &mut machine.results,
    );
    machine.copies = machine.copies.saturating_add(copies);
    machine.pc += 1;
    machine.fires += 1;
    Ok(Turn::Goes)
}
