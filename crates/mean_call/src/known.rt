//! Which numbers of a table stand for types, by one look at each.
ghost use Rattle.std.specs.Prelude.{◌≡◌, IfOk};
ghost use Rattle.std.specs.List.{list_all};
ghost use Rattle.mean_call.specs.Known.{is_known, is_known_member, is_known_form, known_types};

use flow_value::{NoMemory, Seq};
use std::alloc::Global;
use type_table::{Form, Member, Types};

fn is_known(known: &[bool], number: usize) -> bool
    ensures { result ≡ is_known known.now number }
{
    match known.get(number) {
        Some(known) => *known,
        None => false,
    }
}

fn is_member(names: usize, known: &[bool], member: &Member) -> bool
    ensures { result ≡ is_known_member names known.now member.now }
{
    (member.name as usize) < names && is_known(known, member.ty)
}

fn are_members(names: usize, known: &[bool], members: &[Member]) -> bool
    ensures { result ≡ list_all (is_known_member names known.now) members.now }
{
    for member in members {
        if !is_member(names, known, member) {
            return false;
        }
    }
    true
}

fn is_form(names: usize, known: &[bool], form: &Form) -> bool
    ensures { result ≡ is_known_form names known.now form.now }
{
    match form {
        Form::Array(part) | Form::Stream(part) => is_known(known, *part),
        Form::Record(members) | Form::Union(members) => {
            are_members(names, known, members.as_slice())
        }
        _ => true,
    }
}

/// For each number of a table whether it stands for a type, whose names are some of so many.
pub fn known_types(alloc: Global, types: &Types, names: usize) -> Result<Seq<bool>, NoMemory>
    ensures { IfOk result (λ known. known ≡ known_types names types.now) }
{
    let mut known = Seq::with_room(alloc, types.len())?;
    for place in 0..types.len() {
        let Some(form) = types.form_at(place) else {
            unreachable!();
        };
        let here = is_form(names, known.as_slice(), form);
        known.add(here)?;
    }
    Ok(known)
}

/// Whether all numbers stand for types that are known.
pub fn are_known(known: &[bool], numbers: &[usize]) -> bool
    ensures { result ≡ list_all (is_known known.now) numbers.now }
{
    for number in numbers {
        if !is_known(known, *number) {
            return false;
        }
    }
    true
}
