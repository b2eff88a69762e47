//! Records and unions.
ghost use Rattle.std.specs.Prelude.{◌≡◌, ◌≤◌, ◌++◌, ◌&&◌, IfOk, nat_eq, length, drop, Some, None, map, ℕ, List};
ghost use Rattle.std.specs.Option.{option_map};
ghost use Rattle.type_rules.specs.Records.{fields, paired, is_member, are_members, are_fields, are_fields_at, record_sort, field_place, all_places, replaces, records, unites, tests};

use crate::distinct::are_distinct;
use crate::head::{Outcome, Sort};
use crate::lookups::{field_at, is_record_at, member_in_union};
use crate::made::{outcome_of, there};
use flow_value::{NoMemory, Numbers, Seq};
use std::alloc::Global;
use type_table::{BOOLEAN, Form, Member, Types};
use value_ops::Operation;

/// `r.f`
pub fn fields(types: &Types, name: u32, operands: &[usize]) -> Option<Outcome>
    ensures { result ≡ fields types.now name operands.now }
{
    let [ty] = operands else {
        return None;
    };
    match field_at(types, *ty, name) {
        Some((place, content)) => Some(there(Operation::Field(place), content)),
        None => None,
    }
}

/// `union T [t: v]`
pub fn unites(types: &Types, ty: usize, tag: u32, operands: &[usize]) -> Option<Outcome>
    ensures { result ≡ unites types.now ty tag operands.now }
{
    let [value] = operands else {
        return None;
    };
    match member_in_union(types, ty, tag) {
        Some((place, content)) => {
            if content == *value {
                Some(there(Operation::Union(place), ty))
            } else {
                None
            }
        }
        None => None,
    }
}

/// `is t(a)`
pub fn tests(types: &Types, tag: u32, operands: &[usize]) -> Option<Outcome>
    ensures { result ≡ tests types.now tag operands.now }
{
    let [ty] = operands else {
        return None;
    };
    match member_in_union(types, *ty, tag) {
        Some((place, _)) => Some(there(Operation::IsTag(place), BOOLEAN)),
        None => None,
    }
}

/// Names and types one by one, as many as there are of both.
fn paired(alloc: Global, names: &[u32], types: &[usize]) -> Result<Seq<Member>, NoMemory>
    requires { length names.now ≡ length types.now }
    ensures { IfOk result (λ ms. ms ≡ paired names.now types.now) }
{
    let mut members = Seq::new(alloc);
    for i in 0..names.len() {
        members.add(Member {
            name: names[i],
            ty: types[i],
        })?;
    }
    Ok(members)
}

/// Whether members are the same, in order.
fn are_members(members: &[Member], others: &[Member]) -> bool
    requires { length members.now ≡ length others.now }
    ensures { result ≡ are_members members.now others.now }
{
    for i in 0..members.len() {
        if !is_member(members[i], others[i]) {
            return false;
        }
    }
    true
}

fn is_member(member: Member, other: Member) -> bool
    ensures { result ≡ is_member member other }
{
    member.name == other.name && member.ty == other.ty
}

/// Whether fields are these, in order.
fn are_fields(fields: &[Member], members: &[Member]) -> bool
    ensures { result ≡ are_fields fields.now members.now }
{
    fields.len() == members.len() && are_members(fields, members)
}

/// Whether a type is the record of these fields.
fn are_fields_at(types: &Types, ty: usize, members: &[Member]) -> bool
    ensures { result ≡ are_fields_at types.now ty members.now }
{
    match types.form(ty) {
        Some(Form::Record(fields)) => are_fields(fields.as_slice(), members),
        _ => false,
    }
}

/// The record of these fields, which is the type that is named where one is.
fn record_sort(types: &Types, named: Option<usize>, members: Seq<Member>) -> Option<Sort>
    ensures { result ≡ record_sort types.now named members }
{
    let Some(ty) = named else {
        return Some(Sort::Made(Form::Record(members)));
    };
    if are_fields_at(types, ty, members.as_slice()) {
        Some(Sort::There(ty))
    } else {
        None
    }
}

/// `record T [f: v; ..]`
pub fn records(
    alloc: Global,
    types: &Types,
    named: Option<usize>,
    names: &[u32],
    operands: &[usize],
) -> Result<Option<Outcome>, NoMemory>
    ensures { IfOk result (λ o. o ≡ records types.now named names.now operands.now) }
{
    if names.len() != operands.len() {
        return Ok(None);
    }
    if !are_distinct(alloc, names)? {
        return Ok(None);
    }
    let members = paired(alloc, names, operands)?;
    Ok(outcome_of(Operation::Record, record_sort(types, named, members)))
}

/// The place of a field of this name and type.
fn field_place(types: &Types, ty: usize, name: u32, value: usize) -> Option<u32>
    ensures { result ≡ field_place types.now ty name value }
{
    let (place, content) = field_at(types, ty, name)?;
    if content == value { Some(place) } else { None }
}

/// The places of fields of these names and types, if each is there.
fn all_places(
    alloc: Global,
    types: &Types,
    ty: usize,
    names: &[u32],
    values: &[usize],
) -> Result<Option<Numbers>, NoMemory>
    requires { length names.now ≡ length values.now }
    ensures { IfOk result (λ o. o ≡ all_places types.now ty names.now values.now) }
{
    let mut places = Seq::new(alloc);
    for i in 0..names.len() {
        let Some(place) = field_place(types, ty, names[i], values[i]) else {
            return Ok(None);
        };
        places.add(place)?;
    }
    Ok(Some(places))
}

/// `r replace [f: v; ..]`
pub fn replaces(
    alloc: Global,
    types: &Types,
    names: &[u32],
    operands: &[usize],
) -> Result<Option<Outcome>, NoMemory>
    ensures { IfOk result (λ o. o ≡ replaces types.now names.now operands.now) }
{
    let [ty, values @ ..] = operands else {
        return Ok(None);
    };
    if names.len() != values.len() {
        return Ok(None);
    }
    if !is_record_at(types, *ty) {
        return Ok(None);
    }
    if !are_distinct(alloc, names)? {
        return Ok(None);
    }
    match all_places(alloc, types, *ty, names, values)? {
        Some(places) => Ok(Some(there(Operation::Change(places), *ty))),
        None => Ok(None),
    }
}
