//! A form as a list of numbers, by which it is found.
ghost use Rattle.std.specs.Prelude.{◌≡◌, ◌++◌, IfOk, OnOk};
ghost use Rattle.type_table.specs.Keys.{kind_of, members_key, parts_key, key_of};

use crate::form::{Form, Member};
use flow_value::{NoMemory, Seq};
use std::alloc::Global;

/// The numbers of a form: its kind, and then those of its parts.
pub fn key_of(alloc: Global, form: &Form) -> Result<Vec<usize>, NoMemory>
    ensures { IfOk result (λ key. key.items ≡ key_of form.now) }
{
    let mut key = Seq::new(alloc);
    key.add(kind_of(form))?;
    add_parts(&mut key, form)?;
    Ok(key.into_vec())
}

fn kind_of(form: &Form) -> usize
    ensures { result ≡ kind_of form.now }
{
    match form {
        Form::Boolean => 0,
        Form::Character => 1,
        Form::Integer => 2,
        Form::Null => 3,
        Form::Array(_) => 4,
        Form::Stream(_) => 5,
        Form::Record(_) => 6,
        Form::Union(_) => 7,
    }
}

fn add_parts(key: &mut Seq<usize>, form: &Form) -> Result<(), NoMemory>
    ensures { OnOk result (key.new ≡ key.old ++ parts_key form.now) }
{
    match form {
        Form::Array(ty) | Form::Stream(ty) => key.add(*ty),
        Form::Record(members) | Form::Union(members) => add_members(key, members.as_slice()),
        _ => Ok(()),
    }
}

fn add_members(key: &mut Seq<usize>, members: &[Member]) -> Result<(), NoMemory>
    ensures { OnOk result (key.new ≡ key.old ++ members_key members.now) }
{
    for member in members {
        key.add(member.name as usize)?;
        key.add(member.ty)?;
    }
    Ok(())
}
