//! Values that are put to collections.
ghost use Rattle.std.specs.Prelude.{◌≡◌, ◌+◌, ◌-◌, ◌≤◌, false, [], ◌∷◌, None, length, IfOk};
ghost use Rattle.step_code.specs.declared.step.Collect.TheVariants as collect;
ghost use Rattle.step_code.specs.declared.step.Step.TheVariants as step;
ghost use Rattle.step_code.specs.Reading.{so_many, listed};
ghost use Rattle.sequential.specs.Loading.{AreInside, AreApart};
ghost use Rattle.sequential.specs.Agrees.{DoesForAll};
ghost use Rattle.sequential_loops.specs.Putting.{AreColumns, AreSparing};

use crate::numbers::put_number;
use crate::once::are_moved_once;
use crate::rows::{collects_from, put_row};
use crate::weighing::with_puts;
use flow_value::NoMemory;
use sequential::{Machine, Turn, load, number_in, operands_from};
use std::alloc::Global;
use step_code::{Code, Operand};

/// Puts what is looked at in a cell to one collection, which keeps it each time. An integer goes behind the
/// collection where it stands.
#[inline(always)]
pub fn push(
    machine: &mut Machine,
    alloc: Global,
    code: &Code,
    limit: u64,
    collects: u32,
    froms: u32,
    from: u32,
    out: u32,
    next: u32,
) -> Result<Turn, NoMemory>
    requires listed { froms + 1 ≤ length code.now.operands }
    requires inside { AreInside code.now (length machine.old.cells.items - machine.old.base) (listed code.now froms 1) }
    requires apart { AreApart code.now (listed code.now froms 1) }
    requires collected { collects + 1 ≤ length code.now.collects }
    requires counted { 1 ≡ length (so_many collects 1 code.now.collects) }
    requires columns { AreColumns (length (listed code.now froms 1)) (so_many collects 1 code.now.collects) }
    requires sparing { AreSparing out 1 (listed code.now froms 1) }
    requires out { (machine.old.base + out) + 1 ≤ length machine.old.cells.items }
    requires operand { listed code.now froms 1 ≡ Operand.Looks from ∷ [] }
    requires keeps { so_many collects 1 code.now.collects ≡ collect.Sifts 0 None false ∷ [] }
    ensures does { IfOk result (λ t. DoesForAll code.now limit (step.Push collects froms from out next) machine.old t machine.new) }
    ensures cells { length machine.new.cells.items ≡ length machine.old.cells.items }
{
    match number_in(machine.cells.as_slice(), machine.base, from) {
        Some(n) => {
            put_number(alloc, &mut machine.cells, machine.base + out as usize, n)?;
            machine.pc = next as usize;
            Ok(Turn::Goes)
        }
        None => add(
            machine, alloc, code, limit, collects, 1, froms, 1, out, next,
        ),
    }
}

/// Puts values to collections. Where none is read behind its collection, one that is not copied goes
/// into it, which takes memory only where it has to grow.
#[inline(never)]
pub fn add(
    machine: &mut Machine,
    alloc: Global,
    code: &Code,
    limit: u64,
    collects: u32,
    count: u32,
    froms: u32,
    many: u32,
    out: u32,
    next: u32,
) -> Result<Turn, NoMemory>
    requires listed { froms + many ≤ length code.now.operands }
    requires inside { AreInside code.now (length machine.old.cells.items - machine.old.base) (listed code.now froms many) }
    requires apart { AreApart code.now (listed code.now froms many) }
    requires collected { collects + count ≤ length code.now.collects }
    requires counted { count ≡ length (so_many collects count code.now.collects) }
    requires columns { AreColumns (length (listed code.now froms many)) (so_many collects count code.now.collects) }
    requires sparing { AreSparing out count (listed code.now froms many) }
    requires out { (machine.old.base + out) + count ≤ length machine.old.cells.items }
    ensures does { IfOk result (λ t. DoesForAll code.now limit (step.Add collects count froms many out next) machine.old t machine.new) }
    ensures cells { length machine.new.cells.items ≡ length machine.old.cells.items }
{
    let _counted_by_none = limit;
    load(
        alloc,
        code,
        &mut machine.cells,
        machine.base,
        operands_from(code, froms, many),
        &mut machine.copies,
        &mut machine.results,
    )?;
    let these = collects_from(code, collects, count);
    let moves = are_moved_once(these);
    machine.copies = with_puts(these, machine.results.as_slice(), machine.copies);
    put_row(
        alloc,
        these,
        false,
        &mut machine.cells,
        machine.base + out as usize,
        &mut machine.results,
        moves,
    )?;
    machine.pc = next as usize;
    Ok(Turn::Goes)
}
