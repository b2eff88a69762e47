//! Rows that make a value of a multiple.
ghost use Rattle.std.specs.Prelude.{◌≡◌, ◌∷◌, [], List, pos, map, Option, Some, None, IfOk};
ghost use Rattle.std.specs.Option.{option_copied};
ghost use Rattle.flow_value.specs.declared.value.Val.{Val};
ghost use Rattle.flow_value.specs.Lent.{operand_value};
ghost use Rattle.value_ops.specs.Arity.{explicit};
ghost use Rattle.loop_folds.specs.Clauses.{fold_value};
ghost use Rattle.if1_graph.specs.Ops.{reducer_at};
ghost use Rattle.graph_meaning.specs.Carried.{Carried};
ghost use Rattle.graph_meaning.specs.Carried as carried;
ghost use Rattle.graph_meaning.specs.NodeValues.{folded, fold_of, reduced, masked};
ghost use Rattle.node_ops.specs.Operands.{plain, multiple, name, text_of, shape_of};
ghost use Rattle.node_ops.specs.Rows.{single_value};
ghost use Rattle.node_ops.specs.Multiples.{AreElements, reducer_in, each_kept};

use crate::operands::seen;
use crate::row::{Single, gathering_of, reduction_of};
use flow_value::{
    Cause, Items, NoMemory, Operand, Shape, Text, Val, array_of, copy_all, stream_of,
};
use if1_graph::{Reducer, reducer_of};
use loop_folds::{Clause, Folding, Keep, Masking, keep};
use std::alloc::Global;
use std::mem;

/// An array or stream of the kept elements of a multiple: node 107.
pub fn gather(alloc: Global, shape: Shape, ins: &mut [Operand<'_>]) -> Result<Val, NoMemory>
    ensures { IfOk result (λ v. v ≡ single_value (Single.Gathered shape) (map operand_value ins.old)) }
{
    match ins.split_first_mut() {
        Some((lo, rest)) => match seen(lo) {
            Some(Val::Int(lo)) => fold(alloc, gathering_of(shape), *lo, rest),
            Some(Val::Err(cause)) => Ok(Val::Err(*cause)),
            _ => Ok(Val::Err(Cause::Explicit)),
        },
        None => Ok(Val::Err(Cause::Explicit)),
    }
}

/// The last kept element of a multiple: node 127.
pub fn last(alloc: Global, ins: &mut [Operand<'_>]) -> Result<Val, NoMemory>
    ensures { IfOk result (λ v. v ≡ single_value Single.Last (map operand_value ins.old)) }
{
    fold(alloc, Folding::Last, 1, ins)
}

/// The reduction, which the first operand names, of the kept elements of a multiple: nodes 146 to
/// 149.
pub fn reduce(alloc: Global, shape: Shape, ins: &mut [Operand<'_>]) -> Result<Val, NoMemory>
    ensures { IfOk result (λ v. v ≡ single_value (Single.Reduced shape) (map operand_value ins.old)) }
{
    match ins.split_first_mut() {
        Some((name, rest)) => match reducer_named(alloc, name)? {
            Some(reducer) => fold(alloc, reduction_of(shape, reducer), 1, rest),
            None => Ok(Val::Err(Cause::Explicit)),
        },
        None => Ok(Val::Err(Cause::Explicit)),
    }
}

/// What is made of a multiple, with or without a mask behind it.
fn fold(alloc: Global, folding: Folding, lo: i64, ins: &mut [Operand<'_>]) -> Result<Val, NoMemory>
    ensures { IfOk result (λ v. v ≡ fold_of folding lo (map multiple (map operand_value ins.old))) }
{
    match ins.split_first_mut() {
        Some((m, masks)) => fold_behind(alloc, folding, lo, m, masks),
        None => Ok(Val::Err(Cause::Explicit)),
    }
}

fn fold_behind(
    alloc: Global,
    folding: Folding,
    lo: i64,
    m: &mut Operand<'_>,
    masks: &[Operand<'_>],
) -> Result<Val, NoMemory>
    ensures { IfOk result (λ v. v ≡ fold_of folding lo (multiple (operand_value m.old) ∷ map multiple (map operand_value masks.now))) }
{
    match masks {
        [] => fold_one(alloc, folding, lo, m, None),
        [mask] => fold_one(alloc, folding, lo, m, seen(mask)),
        _ => Ok(Val::Err(Cause::Explicit)),
    }
}

fn fold_one(
    alloc: Global,
    folding: Folding,
    lo: i64,
    m: &mut Operand<'_>,
    mask: Option<&Val>,
) -> Result<Val, NoMemory>
    ensures { IfOk result (λ v. v ≡ folded folding lo (multiple (operand_value m.old)) (multiple (option_copied mask.entry))) }
{
    match elements_of(alloc, mem::replace(m, Operand::Absent))? {
        Ok(items) => match mask {
            Some(Val::Stream(masks)) => fold_masked(alloc, folding, lo, items, masks.as_slice()),
            Some(Val::Err(cause)) => Ok(Val::Err(*cause)),
            _ => fold_all(alloc, folding, lo, items),
        },
        Err(cause) => Ok(Val::Err(cause)),
    }
}

/// The elements of a multiple, or the cause of the error that is made of what stands there.
fn elements_of(alloc: Global, m: Operand<'_>) -> Result<Result<Items, Cause>, NoMemory>
    ensures { IfOk result (λ r. AreElements r (multiple (operand_value m.entry))) }
{
    match m {
        Operand::Lent(Val::Stream(items)) => Ok(Ok(copy_all(alloc, items.as_slice())?)),
        Operand::Owned(Val::Stream(items)) => Ok(Ok(items)),
        Operand::Lent(Val::Err(cause)) => Ok(Err(*cause)),
        Operand::Owned(Val::Err(cause)) => Ok(Err(cause)),
        _ => Ok(Err(Cause::Explicit)),
    }
}

/// What is made of all elements: an array or a stream has them as they stand.
fn fold_all(alloc: Global, folding: Folding, lo: i64, items: Items) -> Result<Val, NoMemory>
    ensures { IfOk result (λ v. v ≡ fold_value folding lo (each_kept items)) }
{
    match folding {
        Folding::Array => Ok(array_of(lo, items)),
        Folding::Stream => Ok(stream_of(items)),
        _ => fold_each(alloc, folding, lo, items),
    }
}

fn fold_each(alloc: Global, folding: Folding, lo: i64, items: Items) -> Result<Val, NoMemory>
    ensures { IfOk result (λ v. v ≡ fold_value folding lo (each_kept items)) }
{
    let mut clause = Clause::new(alloc, folding);
    let mut values = items;
    while let Some(value) = values.take_first() {
        clause.put(value, Keep::Kept)?;
    }
    Ok(clause.done(lo))
}

fn fold_masked(
    alloc: Global,
    folding: Folding,
    lo: i64,
    items: Items,
    masks: &[Val],
) -> Result<Val, NoMemory>
    ensures { IfOk result (λ v. v ≡ fold_value folding lo (masked items masks.now)) }
{
    let mut clause = Clause::new(alloc, folding);
    let mut values = items;
    for mask in masks {
        match values.take_first() {
            Some(value) => clause.put(value, keep(Masking::When, mask))?,
            None => return Ok(clause.done(lo)),
        }
    }
    Ok(clause.done(lo))
}

/// The reduction that an operand names.
fn reducer_named(alloc: Global, one: &Operand<'_>) -> Result<Option<Reducer>, NoMemory>
    ensures { IfOk result (λ r. r ≡ reducer_in (name (operand_value one.now))) }
{
    match seen(one) {
        Some(Val::Arr(a)) => match characters(alloc, a.as_slice())? {
            Some(text) => Ok(reducer_of(text.as_slice())),
            None => Ok(None),
        },
        _ => Ok(None),
    }
}

/// The codes of characters, if all are characters.
fn characters(alloc: Global, items: &[Val]) -> Result<Option<Text>, NoMemory>
    ensures { IfOk result (λ text. text ≡ text_of items.now) }
{
    let mut text = Text::new(alloc);
    for one in items {
        match one {
            Val::Char(c) => text.add(*c)?,
            _ => return Ok(None),
        }
    }
    Ok(Some(text))
}
