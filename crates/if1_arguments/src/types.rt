//! The types of a unit by number.
ghost use Rattle.std.specs.Prelude.{◌≡◌};
ghost use Rattle.if1_arguments.specs.Numbered.{form_of, list_of, numbered};

use if1_types::{Sorts, TyForm};
use value_text::{NumberedTypes, TypeForm};

/// The types of a unit.
#[derive(Clone, Copy)]
pub struct UnitTypes<'a> {
    /// The numbers of what labels stand for.
    pub sorts: &'a Sorts,
}

fn form_of(form: TyForm) -> TypeForm
    ensures { result ≡ form_of form }
{
    match form {
        TyForm::Nothing => TypeForm::Nothing,
        TyForm::Boolean => TypeForm::Boolean,
        TyForm::Character => TypeForm::Character,
        TyForm::Integer => TypeForm::Integer,
        TyForm::Null => TypeForm::Null,
        TyForm::Array(element) => TypeForm::Array(element as usize),
        TyForm::Stream(element) => TypeForm::Stream(element as usize),
        TyForm::Record(_) => TypeForm::Record,
        TyForm::Union(_) => TypeForm::Union,
    }
}

/// The list of the members of a record or union.
fn list_of(form: TyForm) -> u32
    ensures { result ≡ list_of form }
{
    match form {
        TyForm::Record(list) | TyForm::Union(list) => list,
        _ => 0,
    }
}

impl<'a> NumberedTypes for UnitTypes<'a> {
    ghost seen = { λ s. numbered s.sorts.now.shapes };

    fn form_of(&self, number: usize) -> TypeForm {
        form_of(self.sorts.ty(number))
    }

    fn count_of(&self, number: usize) -> usize {
        self.sorts.length(list_of(self.sorts.ty(number))) as usize
    }

    fn member_of(&self, number: usize, place: usize) -> Option<usize> {
        let list = list_of(self.sorts.ty(number));
        if place >= self.sorts.length(list) as usize {
            return None;
        }
        match self.sorts.member(list, place as u32) {
            Some(member) => Some(member as usize),
            None => None,
        }
    }
}
