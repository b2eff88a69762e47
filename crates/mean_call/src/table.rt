//! The types of a program by number, for who reads values at them.
ghost use Rattle.std.specs.Prelude.{◌≡◌};
ghost use Rattle.std.specs.Option.{option_copied};
ghost use Rattle.mean_call.specs.Table.{form_of, numbered};
ghost use Rattle.type_table.specs.Tables.{members_at};

use flow_value::item_at;
use type_table::{Form, Member, Types, members_of};
use value_text::{NumberedTypes, TypeForm};

/// The types of a program.
#[derive(Clone, Copy)]
pub struct ProgramTypes<'a> {
    /// Their table.
    pub table: &'a Types,
}

fn form_of(form: Option<&Form>) -> TypeForm
    ensures { result ≡ form_of (option_copied form.entry) }
{
    match form {
        None => TypeForm::Nothing,
        Some(Form::Boolean) => TypeForm::Boolean,
        Some(Form::Character) => TypeForm::Character,
        Some(Form::Integer) => TypeForm::Integer,
        Some(Form::Null) => TypeForm::Null,
        Some(Form::Array(element)) => TypeForm::Array(*element),
        Some(Form::Stream(element)) => TypeForm::Stream(*element),
        Some(Form::Record(_)) => TypeForm::Record,
        Some(Form::Union(_)) => TypeForm::Union,
    }
}

/// The members of the type of a number.
fn members_at(types: &Types, number: usize) -> &[Member]
    ensures { result.now ≡ members_at types.now number }
{
    match types.form(number) {
        Some(form) => members_of(form),
        None => &[],
    }
}

impl<'a> NumberedTypes for ProgramTypes<'a> {
    ghost seen = { λ s. numbered s.table.now };

    fn form_of(&self, number: usize) -> TypeForm {
        form_of(self.table.form(number))
    }

    fn count_of(&self, number: usize) -> usize {
        members_at(self.table, number).len()
    }

    fn member_of(&self, number: usize, place: usize) -> Option<usize> {
        match item_at(members_at(self.table, number), place) {
            Some(member) => Some(member.ty),
            None => None,
        }
    }
}
