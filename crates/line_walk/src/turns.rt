//! The loop names of a `for initial`, and where its values are collected.
ghost use Rattle.std.specs.Prelude.{◌≡◌, ◌++◌, ◌<◌, ℕ, List, Option, IsTrue, length, get_or, drop, map, OnOk, IfOk};
ghost use Rattle.lowering.specs.declared.feed.Carried.{Carried};
ghost use Rattle.lowering.specs.Loops.{loop_name};
ghost use Rattle.line_types.specs.Traces.{carried_at, collected, phrase, renew, renew_one};
ghost use Rattle.line_walk.specs.Met.{column_at, next_column};

use crate::loops::{behind_first, next_flag};
use crate::nodes::carried_at;
use crate::ports::item_of;
use flow_value::{NoMemory, Seq};
use lowering::Carried;
use std::alloc::Global;
use type_table::Types;
use typed_tree::{TypedExpr, TypedKind};

/// The level of a phrase that is a name.
pub fn level_of(types: &Types, e: &TypedExpr) -> Option<u32>
    ensures { result ≡ (phrase types.now e.now).name }
{
    let _ = types;
    match &e.kind {
        TypedKind::Value(level) => Some(*level),
        _ => None,
    }
}

/// The place among so many loop names of a name, where so many names stand around the loop.
pub fn loop_place(level: Option<u32>, around: usize, count: usize) -> Option<usize>
    ensures { result ≡ loop_name around count level }
{
    let level = level? as usize;
    if level >= around && level - around < count {
        Some(level - around)
    } else {
        None
    }
}

/// Has a loop name carry this, where a name of the turn renews one.
#[tactic(auto, using(crate::proofs::Renewals::set_past))]
fn renew_one(names: &mut Seq<Carried>, place: Option<u32>, carried: Carried)
    ensures { names.new ≡ renew_one place carried names.old }
{
    if let Some(place) = place {
        if (place as usize) < names.len() {
            names.set(place as usize, carried);
        }
    }
}

/// A place of a list.
fn place_at(places: &[Option<u32>], place: usize) -> Option<u32>
    requires { place < length places.now }
    ensures { (other : Option ℕ) → result ≡ get_or places.now place other }
{
    places[place]
}

/// Has the loop names carry what they carry after a turn, whose names carry these.
pub fn renew(names: &mut Seq<Carried>, renewed: &[Option<u32>], carried: &[Carried])
    ensures { names.new ≡ renew renewed.now carried.now names.old }
{
    let mut left = renewed.len().min(carried.len());
    while left > 0 {
        left -= 1;
        renew_one(names, place_at(renewed, left), item_of(carried, left));
    }
}

/// Whether these two are the same.
fn is_same(one: Carried, other: Carried) -> bool
    ensures { IsTrue result → one ≡ other }
{
    match (one, other) {
        (Carried::One(a), Carried::One(b)) => a == b,
        (Carried::Many(a), Carried::Many(b)) => a == b,
        (Carried::Callee(a), Carried::Callee(b)) => a == b,
        _ => false,
    }
}

/// Whether these are the same.
pub fn are_same(some: &[Carried], others: &[Carried]) -> bool
    ensures { IsTrue result → some.now ≡ others.now }
{
    if some.len() != others.len() {
        return false;
    }
    for place in 0..some.len() {
        if !is_same(item_of(some, place), item_of(others, place)) {
            return false;
        }
    }
    true
}

/// Adds what is collected for a value or a mask of a clause, which is a loop name at this place, among
/// these multiples, of which some are left.
fn add_column(
    columns: &mut Seq<Carried>,
    mask: Option<bool>,
    place: Option<usize>,
    multiples: &[Carried],
    left: &[Carried],
) -> Result<(), NoMemory>
    ensures { OnOk result ((next : ℕ) → left.now ≡ drop next multiples.now → columns.new ≡ columns.old ++ map (carried_at multiples.now) (column_at mask place next)) }
{
    match mask {
        None => Ok(()),
        Some(true) => columns.add(carried_at(left, 0)),
        Some(false) => match place {
            None => columns.add(carried_at(left, 0)),
            Some(place) => columns.add(carried_at(multiples, place)),
        },
    }
}

/// Those that are left behind a value or a mask of a clause.
#[tactic(auto, using(crate::proofs::Renewals::one_behind))]
fn behind_column<'a>(mask: Option<bool>, place: Option<usize>, left: &'a [Carried]) -> &'a [Carried]
    ensures { (multiples : List Carried) (next : ℕ) → left.now ≡ drop next multiples → result.now ≡ drop (next_column mask place next) multiples }
{
    match mask {
        None => left,
        Some(true) => behind_first(left, 1),
        Some(false) => match place {
            None => behind_first(left, 1),
            Some(_) => left,
        },
    }
}

/// What the values and masks of the clauses are collected as, among these multiples, of which the first
/// are those of so many loop names.
pub fn columns(
    alloc: Global,
    types: &Types,
    around: usize,
    count: usize,
    masks: &[bool],
    es: &[TypedExpr],
    multiples: &[Carried],
) -> Result<Seq<Carried>, NoMemory>
    ensures { IfOk result (λ cs. cs ≡ map (carried_at multiples.now) (collected (loop_name around count) count masks.now (map (phrase types.now) es.now))) }
{
    let mut columns = Seq::new(alloc);
    let mut flags = masks;
    let mut left = behind_first(multiples, count);
    for e in es {
        let (mask, behind) = next_flag(flags);
        let place = loop_place(level_of(types, e), around, count);
        add_column(&mut columns, mask, place, multiples, left)?;
        left = behind_column(mask, place, left);
        flags = behind;
    }
    Ok(columns)
}
