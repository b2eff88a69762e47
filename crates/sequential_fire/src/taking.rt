//! Nodes of one output, on operands that were brought to cells of their own.
ghost use Rattle.std.specs.Prelude.{◌≡◌, ◌<◌, ◌+◌, ◌∷◌, [], List, Some, length, map, drop, get_or, IfOk};
ghost use Rattle.flow_value.specs.declared.value.Val.TheViews.{out-Val};
ghost use Rattle.flow_value.specs.Lent.{operand_value};
ghost use Rattle.graph_meaning.specs.Carried.{Carried, Value};
ghost use Rattle.graph_meaning.specs.NodeValues.{op};
ghost use Rattle.node_ops.specs.Operands.{HasOneOutput, multiple_in, shape_of};
ghost use Rattle.place_ops.specs.Taken.{NeedsNoRoom, AddsElements, values_taken};
ghost use Rattle.run_store.specs.Stored as stored;
ghost use Rattle.run_cells.specs.Held.{held};
ghost use Rattle.sequential.specs.Firing.{value_operand};
ghost use Rattle.sequential.specs.Valued.{IsOfValues};
ghost use Rattle.sequential_fire.specs.Given.{given_as, all_given};
ghost use Rattle.sequential_fire.specs.Outputs.{AreHeld};
ghost use Rattle.run_cells.specs.declared.cell.Cell.TheVariants as cell;
ghost use Rattle.sequential_fire.specs.Taking.{GivesCell, IsFired, CanBe};

use crate::given::{Wants, given, wanted_at};
use crate::outputs::output_of;
use crate::summing::summed;
use flow_value::{Cause, NoMemory, Operand as Given, Shape, Val, owned};
use if1_graph::Simple;
use node_ops::fire_one;
use place_ops::{extend_taken, fire_taken};
use run_cells::{Boxed, Cell, cell_of, owned_by, union_of};
use sequential::give_up;
use std::alloc::Global;
use std::mem;

/// The value of a cell, moved out, at a port that takes one. A union of an integer is made in a box.
fn value_out(alloc: Global, cell: Cell) -> Result<Option<Val>, NoMemory>
    ensures { IfOk result (λ v. (k : Carried) → held cell ≡ stored.Owns k → v ≡ value_operand k) }
{
    match cell {
        Cell::Empty => Ok(None),
        Cell::Error(cause) => Ok(Some(Val::Err(cause))),
        Cell::Int(n) => Ok(Some(Val::Int(n))),
        Cell::Bool(b) => Ok(Some(Val::Bool(b))),
        Cell::Char(c) => Ok(Some(Val::Char(c))),
        Cell::Null => Ok(Some(Val::Null)),
        Cell::UnionInt(tag, n) => Ok(Some(union_of(alloc, tag, n)?)),
        Cell::Owned(v) => Ok(Some(v.into_inner())),
        Cell::Range(_, _) => Ok(Some(Val::Err(Cause::Explicit))),
        Cell::Many(v) => Ok(Some(no_multiple(v.into_inner()))),
        Cell::Spoiled(cause) => Ok(Some(Val::Err(cause))),
        Cell::Name(_) => Ok(Some(Val::Err(Cause::Explicit))),
        Cell::Unfilled => Ok(None),
        Cell::Lent(_) => Ok(None),
        Cell::LentPart(_) => Ok(None),
    }
}

/// A multiple where a value is wanted.
fn no_multiple(v: Val) -> Val
    ensures { Some result ≡ value_operand (multiple_in v (out-Val v)) }
{
    match v {
        Val::Stream(_) => Val::Err(Cause::Explicit),
        other => other,
    }
}

/// What a cell has, moved out, as a port takes it.
fn given_out<'a>(alloc: Global, wants: Wants, cell: Cell) -> Result<Given<'a>, NoMemory>
    ensures { IfOk result (λ g. (k : Carried) → held cell ≡ stored.Owns k → operand_value g ≡ given_as wants k) }
{
    match wants {
        Wants::Value => Ok(or_absent(value_out(alloc, cell)?)),
        Wants::Multiple => multiple_out(alloc, cell),
        Wants::Name => copied_out(alloc, Wants::Name, &cell),
    }
}

fn or_absent<'a>(v: Option<Val>) -> Given<'a>
    ensures { operand_value result ≡ v }
{
    match v {
        Some(v) => Given::Owned(v),
        None => Given::Absent,
    }
}

fn multiple_out<'a>(alloc: Global, cell: Cell) -> Result<Given<'a>, NoMemory>
    ensures { IfOk result (λ g. (k : Carried) → held cell ≡ stored.Owns k → operand_value g ≡ given_as Wants.Multiple k) }
{
    match cell {
        Cell::Many(v) => Ok(Given::Owned(only_multiple(v.into_inner()))),
        other => copied_out(alloc, Wants::Multiple, &other),
    }
}

/// A multiple, and null where there is none.
fn only_multiple(v: Val) -> Val
    ensures { Some result ≡ given_as Wants.Multiple (multiple_in v (out-Val v)) }
{
    match v {
        Val::Stream(items) => Val::Stream(items),
        Val::Err(cause) => Val::Err(cause),
        _ => Val::Null,
    }
}

fn copied_out<'a>(alloc: Global, wants: Wants, cell: &Cell) -> Result<Given<'a>, NoMemory>
    ensures { IfOk result (λ g. (k : Carried) → held cell.now ≡ stored.Owns k → operand_value g ≡ given_as wants k) }
{
    Ok(or_absent(owned(alloc, given(alloc, wants, owned_by(cell))?)?))
}

/// A cell with the output of a node on what these cells own, which is moved into it. A sum of integers
/// is made where they stand.
fn remade(
    alloc: Global,
    row: Simple,
    shape: Shape,
    loaded: &mut Vec<Cell>,
) -> Result<Cell, NoMemory>
    requires one { HasOneOutput row }
    requires ports { length loaded.old.items < 4294967296 }
    ensures { IfOk result (λ c. IsFired row shape loaded.old.items c) }
{
    match summed(row, loaded.as_slice()) {
        Some(sum) => {
            last_goes(loaded);
            let cell = cell_of(alloc, sum)?;
            Ok(cell)
        }
        None => made_anew(alloc, row, shape, loaded),
    }
}

/// Lets what the last cell had go.
fn last_goes(loaded: &mut Vec<Cell>) {
    if let Some(cell) = loaded.pop() {
        give_up(cell);
    }
}

fn made_anew(
    alloc: Global,
    row: Simple,
    shape: Shape,
    loaded: &mut Vec<Cell>,
) -> Result<Cell, NoMemory>
    requires one { HasOneOutput row }
    requires ports { length loaded.old.items < 4294967296 }
    ensures { IfOk result (λ c. IsFired row shape loaded.old.items c) }
{
    let mut ins = all_out(alloc, row, loaded)?;
    let value = fire_one(alloc, row, shape, ins.as_mut_slice())?;
    let cell = output_of(alloc, row, value)?;
    Ok(cell)
}

fn cell_out(loaded: &mut Vec<Cell>, place: usize) -> Cell
    requires { place < length loaded.old.items }
    ensures value { result ≡ get_or loaded.old.items place cell.Empty }
    ensures others { drop (place + 1) loaded.new.items ≡ drop (place + 1) loaded.old.items }
    ensures long { length loaded.new.items ≡ length loaded.old.items }
{
    mem::replace(&mut loaded[place], Cell::Empty)
}

fn all_out<'a>(
    alloc: Global,
    row: Simple,
    loaded: &mut Vec<Cell>,
) -> Result<Vec<Given<'a>>, NoMemory>
    ensures given { IfOk result (λ ins. (ks : List Carried) → AreHeld loaded.old.items ks → map operand_value ins.items ≡ all_given row ks) }
    ensures long { IfOk result (λ ins. length ins.items ≡ length loaded.old.items) }
{
    let mut ins = Vec::with_capacity(alloc, loaded.len())?;
    for place in 0..loaded.len() {
        let cell = cell_out(loaded, place);
        let one = given_out(alloc, wanted_at(row, place), cell)?;
        ins.push(one)?;
    }
    Ok(ins)
}

// ---- in place

/// The value in a box, changed there; takes no memory.
pub fn in_place(row: Simple, boxed: Boxed<Val>, ins: &mut [Option<Val>]) -> Boxed<Val>
    requires { NeedsNoRoom row }
    ensures { values_taken row boxed ins.old ≡ result ∷ [] }
{
    let mut owner = boxed;
    fire_taken(row, owner.get_mut(), ins);
    owner
}

/// The value in a box with an element more, or with others.
fn extended(
    alloc: Global,
    row: Simple,
    boxed: Boxed<Val>,
    ins: &mut [Given<'_>],
) -> Result<Boxed<Val>, NoMemory>
    requires { AddsElements row }
    ensures { IfOk result (λ b. values_taken row boxed (map operand_value ins.old) ≡ b ∷ []) }
{
    let mut owner = boxed;
    extend_taken(alloc, row, owner.get_mut(), ins)?;
    Ok(owner)
}

// ---- by how many operands there are

/// A cell with the output of a node on what these cells own. An array, a stream or a record is
/// changed where it is, in its box.
pub fn changed(
    alloc: Global,
    row: Simple,
    shape: Shape,
    loaded: &mut Vec<Cell>,
) -> Result<Cell, NoMemory>
    requires one { HasOneOutput row }
    requires ports { length loaded.old.items < 4294967296 }
    ensures { IfOk result (λ c. IsFired row shape loaded.old.items c) }
{
    match (way_of(row), loaded.len()) {
        (Way::InPlace, 1) => one_changed(alloc, row, shape, loaded),
        (Way::InPlace, 2) => two_changed(alloc, row, shape, loaded),
        (Way::InPlace, 3) => three_changed(alloc, row, shape, loaded),
        (Way::Longer, 2) => two_longer(alloc, row, shape, loaded),
        _ => remade(alloc, row, shape, loaded),
    }
}

/// How a row changes its first operand.
#[derive(Clone, Copy)]
enum Way {
    /// In place.
    InPlace,
    /// It adds elements.
    Longer,
    /// It does not.
    Anew,
}

fn way_of(row: Simple) -> Way
    ensures { CanBe result row }
{
    match row {
        Simple::AReplace => Way::InPlace,
        Simple::RReplace => Way::InPlace,
        Simple::ARemH => Way::InPlace,
        Simple::ARemL => Way::InPlace,
        Simple::ASetL => Way::InPlace,
        Simple::AAdjust => Way::InPlace,
        Simple::RestValues => Way::InPlace,
        Simple::AAddH => Way::Longer,
        Simple::AAddL => Way::Longer,
        Simple::ACatenate => Way::Longer,
        _ => Way::Anew,
    }
}

fn one_changed(
    alloc: Global,
    row: Simple,
    shape: Shape,
    loaded: &mut Vec<Cell>,
) -> Result<Cell, NoMemory>
    requires row { NeedsNoRoom row }
    requires long { length loaded.old.items ≡ 1 }
    ensures { IfOk result (λ c. IsFired row shape loaded.old.items c) }
{
    let first = cell_out(loaded, 0);
    let cell = on_one(alloc, row, shape, first)?;
    Ok(cell)
}

fn two_changed(
    alloc: Global,
    row: Simple,
    shape: Shape,
    loaded: &mut Vec<Cell>,
) -> Result<Cell, NoMemory>
    requires row { NeedsNoRoom row }
    requires long { length loaded.old.items ≡ 2 }
    ensures { IfOk result (λ c. IsFired row shape loaded.old.items c) }
{
    let first = cell_out(loaded, 0);
    let second = cell_out(loaded, 1);
    let cell = on_two(alloc, row, shape, first, second)?;
    Ok(cell)
}

fn three_changed(
    alloc: Global,
    row: Simple,
    shape: Shape,
    loaded: &mut Vec<Cell>,
) -> Result<Cell, NoMemory>
    requires row { NeedsNoRoom row }
    requires long { length loaded.old.items ≡ 3 }
    ensures { IfOk result (λ c. IsFired row shape loaded.old.items c) }
{
    let first = cell_out(loaded, 0);
    let second = cell_out(loaded, 1);
    let third = cell_out(loaded, 2);
    let cell = on_three(alloc, row, shape, first, second, third)?;
    Ok(cell)
}

fn two_longer(
    alloc: Global,
    row: Simple,
    shape: Shape,
    loaded: &mut Vec<Cell>,
) -> Result<Cell, NoMemory>
    requires row { AddsElements row }
    requires long { length loaded.old.items ≡ 2 }
    ensures { IfOk result (λ c. IsFired row shape loaded.old.items c) }
{
    let first = cell_out(loaded, 0);
    let second = cell_out(loaded, 1);
    let cell = longer_by(alloc, row, shape, first, second)?;
    Ok(cell)
}

fn on_one(alloc: Global, row: Simple, shape: Shape, first: Cell) -> Result<Cell, NoMemory>
    requires { NeedsNoRoom row }
    ensures { IfOk result (λ c. (k : Carried) → held first ≡ stored.Owns k → GivesCell c (op row (shape_of shape) (k ∷ []))) }
{
    match first {
        Cell::Owned(boxed) => Ok(Cell::Owned(in_place(row, boxed, &mut []))),
        other => anew_one(alloc, row, shape, other),
    }
}

fn on_two(
    alloc: Global,
    row: Simple,
    shape: Shape,
    first: Cell,
    second: Cell,
) -> Result<Cell, NoMemory>
    requires { NeedsNoRoom row }
    ensures { IfOk result (λ c. (k l : Carried) → held first ≡ stored.Owns k → held second ≡ stored.Owns l → GivesCell c (op row (shape_of shape) (k ∷ l ∷ []))) }
{
    match first {
        Cell::Owned(boxed) => {
            let second = value_out(alloc, second)?;
            let mut ins = [second];
            Ok(Cell::Owned(in_place(row, boxed, &mut ins)))
        }
        other => anew_two(alloc, row, shape, other, second),
    }
}

fn on_three(
    alloc: Global,
    row: Simple,
    shape: Shape,
    first: Cell,
    second: Cell,
    third: Cell,
) -> Result<Cell, NoMemory>
    requires { NeedsNoRoom row }
    ensures { IfOk result (λ c. (k l m : Carried) → held first ≡ stored.Owns k → held second ≡ stored.Owns l → held third ≡ stored.Owns m → GivesCell c (op row (shape_of shape) (k ∷ l ∷ m ∷ []))) }
{
    match first {
        Cell::Owned(boxed) => {
            let second = value_out(alloc, second)?;
            let third = value_out(alloc, third)?;
            let mut ins = [second, third];
            Ok(Cell::Owned(in_place(row, boxed, &mut ins)))
        }
        other => anew_three(alloc, row, shape, other, second, third),
    }
}

fn longer_by(
    alloc: Global,
    row: Simple,
    shape: Shape,
    first: Cell,
    second: Cell,
) -> Result<Cell, NoMemory>
    requires { AddsElements row }
    ensures { IfOk result (λ c. (k l : Carried) → held first ≡ stored.Owns k → held second ≡ stored.Owns l → GivesCell c (op row (shape_of shape) (k ∷ l ∷ []))) }
{
    match first {
        Cell::Owned(boxed) => longer(alloc, row, shape, boxed, second),
        other => anew_two(alloc, row, shape, other, second),
    }
}

fn longer(
    alloc: Global,
    row: Simple,
    shape: Shape,
    boxed: Boxed<Val>,
    second: Cell,
) -> Result<Cell, NoMemory>
    requires { AddsElements row }
    ensures { IfOk result (λ c. (k l : Carried) → stored.Owns (Value boxed) ≡ stored.Owns k → held second ≡ stored.Owns l → GivesCell c (op row (shape_of shape) (k ∷ l ∷ []))) }
{
    let _told_by_the_first = shape;
    let second = value_out(alloc, second)?;
    let mut ins = [or_absent(second)];
    let changed = extended(alloc, row, boxed, &mut ins)?;
    Ok(Cell::Owned(changed))
}

// ---- where the first operand is no aggregate

fn anew_one(alloc: Global, row: Simple, shape: Shape, first: Cell) -> Result<Cell, NoMemory>
    requires { IsOfValues row }
    ensures { IfOk result (λ c. (k : Carried) → held first ≡ stored.Owns k → GivesCell c (op row (shape_of shape) (k ∷ []))) }
{
    let first = value_out(alloc, first)?;
    let mut ins = [or_absent(first)];
    let value = fire_one(alloc, row, shape, &mut ins)?;
    let cell = cell_of(alloc, value)?;
    Ok(cell)
}

fn anew_two(
    alloc: Global,
    row: Simple,
    shape: Shape,
    first: Cell,
    second: Cell,
) -> Result<Cell, NoMemory>
    requires { IsOfValues row }
    ensures { IfOk result (λ c. (k l : Carried) → held first ≡ stored.Owns k → held second ≡ stored.Owns l → GivesCell c (op row (shape_of shape) (k ∷ l ∷ []))) }
{
    let first = value_out(alloc, first)?;
    let second = value_out(alloc, second)?;
    let mut ins = [or_absent(first), or_absent(second)];
    let value = fire_one(alloc, row, shape, &mut ins)?;
    let cell = cell_of(alloc, value)?;
    Ok(cell)
}

fn anew_three(
    alloc: Global,
    row: Simple,
    shape: Shape,
    first: Cell,
    second: Cell,
    third: Cell,
) -> Result<Cell, NoMemory>
    requires { IsOfValues row }
    ensures { IfOk result (λ c. (k l m : Carried) → held first ≡ stored.Owns k → held second ≡ stored.Owns l → held third ≡ stored.Owns m → GivesCell c (op row (shape_of shape) (k ∷ l ∷ m ∷ []))) }
{
    let first = value_out(alloc, first)?;
    let second = value_out(alloc, second)?;
    let third = value_out(alloc, third)?;
    let mut ins = [or_absent(first), or_absent(second), or_absent(third)];
    let value = fire_one(alloc, row, shape, &mut ins)?;
    let cell = cell_of(alloc, value)?;
    Ok(cell)
}
