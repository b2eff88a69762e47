//! The operands of a simple node, as its row takes them.
ghost use Rattle.std.specs.Prelude.{◌≡◌, ◌-◌, ◌+ℤ◌, pos, length, map, IfOk};
ghost use Rattle.std.specs.Int.{saturate_signed, w64};
ghost use Rattle.flow_value.specs.Lent.{operand_value};
ghost use Rattle.flow_value.specs.declared.value.Val.TheVariants as val;
ghost use Rattle.run_cells.specs.Held.{heap_of, rising_in};
ghost use Rattle.run_cells.specs.Sights.{seen_value};
ghost use Rattle.sequential.specs.Loading.{AreInside, seen_of};
ghost use Rattle.sequential_fire.specs.Given.{first_wants, others_want, wants_at, given_as, named_by, spelled, all_given};

use flow_value::{Items, NoMemory, Operand as Given, Val, array_of, copy_all};
use if1_graph::{Reducer, Simple, reducer_of};
use run_cells::{Cell, Seen};
use sequential::{operand_at, operand_of, sight};
use std::alloc::Global;
use step_code::{Code, Operand};

/// What a port takes.
#[derive(Clone, Copy)]
pub enum Wants {
    /// A value.
    Value,
    /// A multiple.
    Multiple,
    /// The name of a reduction.
    Name,
}

/// What the first port of a row takes.
fn first_wanted(row: Simple) -> Wants
    ensures { result ≡ first_wants row }
{
    match row {
        Simple::FinalValue => Wants::Multiple,
        Simple::Reduce(_) => Wants::Name,
        _ => Wants::Value,
    }
}

/// What the other ports take.
fn others_wanted(row: Simple) -> Wants
    ensures { result ≡ others_want row }
{
    match row {
        Simple::AGather => Wants::Multiple,
        Simple::FinalValue => Wants::Multiple,
        Simple::Reduce(_) => Wants::Multiple,
        _ => Wants::Value,
    }
}

/// What the port after so many takes.
pub fn wanted_at(row: Simple, place: usize) -> Wants
    ensures { result ≡ wants_at row place }
{
    if place == 0 {
        first_wanted(row)
    } else {
        others_wanted(row)
    }
}

/// What is seen, as a port takes it.
pub fn given<'a>(alloc: Global, wants: Wants, seen: Seen<'a>) -> Result<Given<'a>, NoMemory>
    ensures { IfOk result (λ g. operand_value g ≡ given_as wants (seen_value seen.entry)) }
{
    match wants {
        Wants::Value => operand_of(alloc, seen),
        Wants::Multiple => multiple(alloc, seen),
        Wants::Name => name(alloc, seen),
    }
}

fn multiple<'a>(alloc: Global, seen: Seen<'a>) -> Result<Given<'a>, NoMemory>
    ensures { IfOk result (λ g. operand_value g ≡ given_as Wants.Multiple (seen_value seen.entry)) }
{
    match seen {
        Seen::Elements(items) => Ok(Given::Owned(Val::Stream(copy_all(alloc, items)?))),
        Seen::Rising(count, lo) => Ok(Given::Owned(Val::Stream(rising(alloc, lo, count)?))),
        Seen::Spoiled(cause) => Ok(Given::Owned(Val::Err(cause))),
        Seen::Unfilled => Ok(Given::Absent),
        _ => Ok(Given::Owned(Val::Null)),
    }
}

/// So many integers, rising from the first.
pub fn rising(alloc: Global, lo: i64, count: u32) -> Result<Items, NoMemory>
    ensures { IfOk result (λ vs. vs ≡ rising_in lo count) }
{
    let mut items = Items::with_room(alloc, count as usize)?;
    for place in 0..count {
        items.add(number_at(lo, place))?;
    }
    Ok(items)
}

/// The integer after so many.
fn number_at(lo: i64, place: u32) -> Val
    ensures { result ≡ Val.Int (saturate_signed w64 (lo +ℤ pos place)) }
{
    Val::Int(lo.saturating_add(place as i64))
}

fn name<'a>(alloc: Global, seen: Seen<'a>) -> Result<Given<'a>, NoMemory>
    ensures { IfOk result (λ g. operand_value g ≡ given_as Wants.Name (seen_value seen.entry)) }
{
    match seen {
        Seen::Name(text) => Ok(Given::Owned(name_of(alloc, reducer_of(text))?)),
        _ => Ok(Given::Owned(Val::Null)),
    }
}

fn name_of(alloc: Global, reducer: Option<Reducer>) -> Result<Val, NoMemory>
    ensures { IfOk result (λ v. v ≡ named_by reducer) }
{
    match reducer {
        Some(reducer) => Ok(array_of(1, characters(alloc, text_of(reducer))?)),
        None => Ok(Val::Null),
    }
}

fn text_of(reducer: Reducer) -> &'static [u8]
    ensures { result.now ≡ spelled reducer }
{
    match reducer {
        Reducer::Sum => b"sum",
        Reducer::Product => b"product",
        Reducer::Least => b"least",
        Reducer::Greatest => b"greatest",
        Reducer::Catenate => b"catenate",
    }
}

fn characters(alloc: Global, text: &[u8]) -> Result<Items, NoMemory>
    ensures { IfOk result (λ vs. vs ≡ map val.Char text.now) }
{
    let mut items = Items::with_room(alloc, text.len())?;
    for c in text {
        items.add(Val::Char(*c))?;
    }
    Ok(items)
}

/// The operands of a node, as its row takes them.
pub fn all_given<'a>(
    alloc: Global,
    code: &'a Code,
    cells: &'a [Cell],
    base: usize,
    row: Simple,
    operands: &[Operand],
) -> Result<Vec<Given<'a>>, NoMemory>
    requires { AreInside code.now (length cells.now - base) operands.now }
    ensures given { IfOk result (λ ins. map operand_value ins.items ≡ all_given row (seen_of code.now base (heap_of cells.now) operands.now)) }
    ensures long { IfOk result (λ ins. length ins.items ≡ length operands.now) }
{
    let mut ins = Vec::with_capacity(alloc, operands.len())?;
    for place in 0..operands.len() {
        let operand = operand_at(operands, place);
        let one = given(
            alloc,
            wanted_at(row, place),
            sight(code, cells, base, operand),
        )?;
        ins.push(one)?;
    }
    Ok(ins)
}
