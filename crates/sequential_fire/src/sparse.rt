//! Simple nodes of whose ports few are filled.
ghost use Rattle.std.specs.Prelude.{◌≡◌, ◌+◌, ◌-◌, ◌<◌, ◌≤◌, ◌++◌, length, if◌then◌else◌, IfOk};
ghost use Rattle.node_ops.specs.Operands.{HasOneOutput, shape_of};
ghost use Rattle.step_code.specs.declared.step.Step.TheVariants as step;
ghost use Rattle.step_code.specs.Laid.{row_of, shape_in};
ghost use Rattle.step_code.specs.Reading.{gapped, listed, so_many};
ghost use Rattle.sequential.specs.Agrees.{DoesForAll};
ghost use Rattle.sequential.specs.Loading.{AreInside, AreApart};

use crate::taking::changed;
use flow_value::{NoMemory, Seq, Shape};
use gapped::spread_out;
use if1_graph::Simple;
use sequential::{Machine, Turn, load, operands_from};
use std::alloc::Global;
use step_code::{Code, Operand, SparseRow};

fn row_of(row: SparseRow) -> Simple
    ensures is { result ≡ row_of row }
    ensures one { HasOneOutput result }
{
    match row {
        SparseRow::Union => Simple::RBuild,
        SparseRow::Record => Simple::RBuild,
        SparseRow::Change => Simple::RReplace,
    }
}

fn shape_of(row: SparseRow) -> Shape
    ensures { shape_of result ≡ shape_in row }
{
    match row {
        SparseRow::Union => Shape::Union,
        SparseRow::Record => Shape::Plain,
        SparseRow::Change => Shape::Plain,
    }
}

/// So many numbers from one on.
fn numbers_from(code: &Code, first: u32, many: u32) -> &[u32]
    requires { first + many ≤ length code.now.targets }
    ensures { result.now ≡ so_many first many code.now.targets }
{
    &code.targets.as_slice()[first as usize..first as usize + many as usize]
}

/// The operands of all ports.
fn all_operands(
    alloc: Global,
    code: &Code,
    gaps: u32,
    ins: u32,
    many: u32,
) -> Result<Seq<Operand>, NoMemory>
    requires listed { ins + many ≤ length code.now.operands }
    requires numbers { gaps + many ≤ length code.now.targets }
    ensures { IfOk result (λ os. os ≡ gapped code.now gaps ins many) }
{
    spread_out(
        alloc,
        Operand::Literal(0),
        numbers_from(code, gaps, many),
        operands_from(code, ins, many),
    )
}

/// The copies so far, with those of operands where they are counted.
fn sum_of(counted: bool, before: u64, with_operands: u64) -> u64
    ensures { result ≡ (if counted then with_operands else before) }
{
    if counted { with_operands } else { before }
}

/// Fires an RBuild or RReplace of whose ports few are filled. What is taken
/// leaves its cell and goes into the output. More ports than 32 bits count are want of memory.
#[inline(never)]
pub fn fire_sparse(
    machine: &mut Machine,
    alloc: Global,
    code: &Code,
    limit: u64,
    row: SparseRow,
    gaps: u32,
    ins: u32,
    many: u32,
    out: u32,
    copies: bool,
) -> Result<Turn, NoMemory>
    requires place { machine.old.pc < 4294967296 }
    requires listed { ins + many ≤ length code.now.operands }
    requires numbers { gaps + many ≤ length code.now.targets }
    requires inside { AreInside code.now (length machine.old.cells.items - machine.old.base) (gapped code.now gaps ins many) }
    requires apart { AreApart code.now (gapped code.now gaps ins many) }
    requires out { machine.old.base + out < length machine.old.cells.items }
    ensures does { IfOk result (λ t. DoesForAll code.now limit (step.Sparse row gaps ins many out copies) machine.old t machine.new) }
    ensures cells { length machine.new.cells.items ≡ length machine.old.cells.items }
{
    if machine.fires >= limit {
        return Ok(Turn::Over);
    }
    let operands = all_operands(alloc, code, gaps, ins, many)?;
    if operands.len() > u32::MAX as usize {
        return Err(NoMemory);
    }
    let mut counted = machine.copies;
    load(
        alloc,
        code,
        &mut machine.cells,
        machine.base,
        operands.as_slice(),
        &mut counted,
        &mut machine.results,
    )?;
    let cell = changed(alloc, row_of(row), shape_of(row), &mut machine.results)?;
    machine.cells[machine.base + out as usize] = cell;
    machine.copies = sum_of(copies, machine.copies, counted);
    machine.pc += 1;
    machine.fires += 1;
    Ok(Turn::Goes)
}
