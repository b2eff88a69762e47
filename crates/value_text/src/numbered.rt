//! Types by number.
ghost use Rattle.std.specs.Prelude.{◌≡◌, ℕ, length, slice_get};
ghost use Rattle.value_text.specs.Numbered.{Numbered};

use crate::type_form::TypeForm;

/// Types by number: what each is, and the members of a record or union in order.
pub trait NumberedTypes {
    // What the types are, and their members.
    ghost seen: { Self → Numbered };

    /// What the type of a number is.
    fn form_of(&self, number: usize) -> TypeForm
        ensures { result ≡ (seen self.now).form number };

    /// How many members it has.
    fn count_of(&self, number: usize) -> usize
        ensures { result ≡ length ((seen self.now).members number) };

    /// The type of its member at a place, from 0.
    fn member_of(&self, number: usize, place: usize) -> Option<usize>
        ensures { result ≡ slice_get ((seen self.now).members number) place };
}
