//! What a form makes of its operands.
ghost use Rattle.std.specs.Prelude.{◌≡◌, ◌↔◌, ◌<◌, IfOk, IfErr, OnOk, OnErr, IsTrue, length, All, map};
ghost use Rattle.type_table.specs.Tables.{HasFew, HasMember, IsOver};
ghost use Rattle.type_rules.specs.Applies.{applies, rule_of, HasField, IsFilled, Grows, Adds, IsSorted, IsTooDeep, IsApplied, IsRefused};

use crate::calls::called;
use crate::fault::Refused;
use crate::head::{Applied, Head, Outcome, Sort};
use crate::records::{fields, records, replaces, tests, unites};
use crate::scalars::{combines, converts, error_of, errs, prefixed};
use crate::sequences::{arrays, empties, selects, streams, updates};
use flow_value::NoMemory;
use std::alloc::Global;
use type_table::{Form, Member, Types};

// No type is deeper than 64.
const TOO_DEEP: u8 = 4;

/// The typing rule of a form.
fn rule_of(head: &Head) -> u8
    ensures { result ≡ rule_of head.now }
{
    match head {
        Head::Select | Head::Update | Head::Array(_) | Head::EmptyArray(_) | Head::Stream(_) => 19,
        Head::Field(_) | Head::Replace(_) | Head::Record(_, _) => 20,
        Head::Union(_, _) | Head::IsTag(_) => 21,
        _ => 15,
    }
}

/// What a form makes of operands of these types, if that breaks none of its own rules.
fn applies(
    alloc: Global,
    types: &Types,
    head: Head,
    operands: &[usize],
) -> Result<Option<Outcome>, NoMemory>
    ensures { IfOk result (λ o. o ≡ applies types.now head operands.now) }
{
    match head {
        Head::ErrorOf(ty) => Ok(error_of(ty, operands)),
        Head::Convert(to) => Ok(converts(to, operands)),
        Head::IsError => Ok(errs(operands)),
        Head::IsTag(tag) => Ok(tests(types, tag, operands)),
        Head::Prefix(operator) => Ok(prefixed(operator, operands)),
        Head::Binary(operator) => Ok(combines(types, operator, operands)),
        Head::Select => Ok(selects(types, operands)),
        Head::Update => Ok(updates(types, operands)),
        Head::Field(name) => Ok(fields(types, name, operands)),
        Head::Replace(names) => replaces(alloc, types, names.as_slice(), operands),
        Head::Array(named) => Ok(arrays(types, named, operands)),
        Head::EmptyArray(named) => Ok(empties(types, named, operands)),
        Head::Stream(named) => Ok(streams(types, named, operands)),
        Head::Record(named, names) => records(alloc, types, named, names.as_slice(), operands),
        Head::Union(ty, tag) => Ok(unites(types, ty, tag, operands)),
        Head::BuiltIn(call) => Ok(called(types, call, operands)),
    }
}

/// Whether all these members are of types that are in the table.
fn are_over(types: &Types, members: &[Member]) -> bool
    ensures { IsTrue result ↔ All (λ t. t < length types.now) (map (λ m. m.ty) members.now) }
{
    for member in members {
        if member.ty >= types.len() {
            return false;
        }
    }
    true
}

/// Whether a form is made of types that are in the table.
fn is_over(types: &Types, form: &Form) -> bool
    ensures { IsTrue result ↔ IsOver (length types.now) form.now }
{
    match form {
        Form::Array(ty) | Form::Stream(ty) => *ty < types.len(),
        Form::Record(members) | Form::Union(members) => are_over(types, members.as_slice()),
        _ => true,
    }
}

/// The number of the type of a form: rule 4 where it is deeper than 64, or made of types that are
/// not in the table.
fn number_made(types: &mut Types, form: Form) -> Result<usize, Refused>
    requires members { HasMember form }
    requires few { HasFew form }
    ensures typed { IfOk result (λ k. IsSorted types.new (Sort.Made form) k) }
    ensures refused { IfErr result (λ e. IsTooDeep types.old (Sort.Made form) e) }
    ensures table { Grows types.old types.new }
    ensures adds { OnOk result (Adds types.old (Sort.Made form) types.new) }
    ensures err { OnErr result (types.new ≡ types.old) }
{
    if !is_over(types, &form) {
        return Err(Refused::Rule(TOO_DEEP));
    }
    match types.number(form)? {
        Some(number) => Ok(number),
        None => Err(Refused::Rule(TOO_DEEP)),
    }
}

/// The number of a type.
pub fn number_of(types: &mut Types, sort: Sort) -> Result<usize, Refused>
    requires { IsFilled sort }
    ensures typed { IfOk result (λ k. IsSorted types.new sort k) }
    ensures refused { IfErr result (λ e. IsTooDeep types.old sort e) }
    ensures table { Grows types.old types.new }
    ensures adds { OnOk result (Adds types.old sort types.new) }
    ensures err { OnErr result (types.new ≡ types.old) }
{
    match sort {
        Sort::There(ty) => Ok(ty),
        Sort::Made(form) => number_made(types, form),
    }
}

/// The operation of a form over operands of these types, and the type that it makes; or the number
/// of the rule that it breaks: 15 of operators, conversions and calls that are built in, 19 of
/// arrays and streams, 20 of records, 21 of unions, and 4 where the type would be deeper than 64.
/// The table has at most one type more, and on an error it is as before.
pub fn apply(
    alloc: Global,
    types: &mut Types,
    head: Head,
    operands: &[usize],
) -> Result<Applied, Refused>
    requires { HasField head }
    ensures applied { IfOk result (λ a. IsApplied types.old head operands.now a types.new) }
    ensures refused { IfErr result (λ e. IsRefused types.old head operands.now e) }
    ensures table { Grows types.old types.new }
    ensures err { OnErr result (types.new ≡ types.old) }
{
    let rule = rule_of(&head);
    match applies(alloc, types, head, operands)? {
        Some(outcome) => {
            let Outcome { operation, sort } = outcome;
            let ty = number_of(types, sort)?;
            Ok(Applied { operation, ty })
        }
        None => Err(Refused::Rule(rule)),
    }
}
