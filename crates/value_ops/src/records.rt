//! Records and unions.
ghost use Rattle.std.specs.Prelude.{◌≡◌, IfOk, length, slice_get, slice_set, nat_eq, nat_lt};
ghost use Rattle.std.specs.List.{list_all};
ghost use Rattle.value_ops.specs.Aggregates.{changed, replaced, or_explicit};
ghost use Rattle.value_ops.specs.Arity.{strict};
ghost use Rattle.value_ops.specs.Views.{on_union};
ghost use Rattle.value_ops.specs.Operand.{value_of, items_of};
ghost use Rattle.value_ops.specs.Operations.{op_value};

use crate::feed::Feed;
use crate::kinds::record;
use crate::listed::{Listed, kept_item, kept_items, slice_of};
use crate::operation::Operation;
use crate::values::{kept, seen};
use flow_value::{Cause, Held, Items, NoMemory, Numbers, Val};
use std::alloc::Global;

/// The record of all operands.
pub fn record_from(alloc: Global, given: Feed<'_>) -> Result<Val, NoMemory>
    ensures { IfOk result (λ v. v ≡ op_value Operation.Record given.entry) }
{
    Ok(Val::Rec(given.all(alloc)?))
}

/// The union of a tag with the operand.
pub fn union_of(alloc: Global, tag: u32, given: Feed<'_>) -> Result<Val, NoMemory>
    ensures { IfOk result (λ v. v ≡ op_value (Operation.Union tag) given.entry) }
{
    match given.one() {
        Some(v) => Ok(Val::Uni(tag, Held::new(alloc, kept(alloc, v)?)?)),
        None => Ok(Val::Err(Cause::Explicit)),
    }
}

/// Whether a union has a tag.
pub fn is_tag(tag: u32, given: Feed<'_>) -> Val
    ensures { result ≡ op_value (Operation.IsTag tag) given.entry }
{
    match given.one() {
        Some(u) => has_tag(tag, seen(&u)),
        None => Val::Err(Cause::Explicit),
    }
}

fn has_tag(tag: u32, u: &Val) -> Val
    ensures { result ≡ strict (on_union (λ t v. Val.Bool (nat_eq tag t))) u.now }
{
    match u {
        Val::Uni(t, _) => Val::Bool(tag == *t),
        Val::Err(cause) => Val::Err(*cause),
        _ => Val::Err(Cause::Explicit),
    }
}

/// A field of a record.
pub fn field(alloc: Global, f: u32, given: Feed<'_>) -> Result<Val, NoMemory>
    ensures { IfOk result (λ v. v ≡ op_value (Operation.Field f) given.entry) }
{
    match given.one() {
        Some(r) => match record(r) {
            Ok(fields) => field_of(alloc, fields, f),
            Err(refused) => Ok(refused),
        },
        None => Ok(Val::Err(Cause::Explicit)),
    }
}

fn field_of(alloc: Global, fields: Listed<'_>, f: u32) -> Result<Val, NoMemory>
    ensures { IfOk result (λ v. v ≡ or_explicit (slice_get (items_of fields.entry) f)) }
{
    if f as usize >= slice_of(&fields).len() {
        return Ok(Val::Err(Cause::Explicit));
    }
    kept_item(alloc, fields, f as usize)
}

/// A record with other fields at some places.
pub fn change(alloc: Global, places: &Numbers, mut given: Feed<'_>) -> Result<Val, NoMemory>
    ensures { IfOk result (λ v. v ≡ op_value (Operation.Change places.now) given.entry) }
{
    match given.next() {
        Some(r) => match record(r) {
            Ok(fields) => change_all(alloc, places.as_slice(), fields, given),
            Err(refused) => Ok(refused),
        },
        None => Ok(Val::Err(Cause::Explicit)),
    }
}

fn change_all(
    alloc: Global,
    places: &[u32],
    fields: Listed<'_>,
    given: Feed<'_>,
) -> Result<Val, NoMemory>
    ensures { IfOk result (λ v. v ≡ changed places.now given.entry (items_of fields.entry)) }
{
    if given.count() != places.len() || !are_fields(places, slice_of(&fields).len()) {
        return Ok(Val::Err(Cause::Explicit));
    }
    let fields = kept_items(alloc, fields)?;
    Ok(Val::Rec(replace_all(alloc, places, fields, given)?))
}

/// Whether all places are below the number of fields.
fn are_fields(places: &[u32], count: usize) -> bool
    ensures { result ≡ list_all (λ p. nat_lt p count) places.now }
{
    for place in places {
        if *place as usize >= count {
            return false;
        }
    }
    true
}

fn replace_all(
    alloc: Global,
    places: &[u32],
    fields: Items,
    mut given: Feed<'_>,
) -> Result<Items, NoMemory>
    ensures { IfOk result (λ fs. fs ≡ replaced places.now given.entry fields) }
{
    let mut fields = fields;
    for place in places {
        match given.next() {
            Some(v) => set_field(&mut fields, *place as usize, kept(alloc, v)?),
            None => return Ok(fields),
        }
    }
    Ok(fields)
}

fn set_field(fields: &mut Items, place: usize, v: Val)
    ensures { fields.new ≡ slice_set fields.old place v }
{
    if place < fields.len() {
        fields.set(place, v);
    }
}
