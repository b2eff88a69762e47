//! The table of a program's types.
ghost use Rattle.std.specs.Prelude.{◌≡◌, ◌<◌, length, slice_get, Some, IfSome, IfOk, OnErr, IsNone, ◌↔◌};
ghost use Rattle.std.specs.Option.{option_copied};
ghost use Rattle.type_table.specs.Forms.{form_depth};
ghost use Rattle.type_table.specs.Tables.{depths, member_at, basic_forms, AddsAtMost, HasFew, HasMember, IsOver, IsTable};

use crate::form::Form;
use crate::store::Store;
use flow_value::{NoMemory, Seq};
use std::alloc::Global;
use std::marker::Model;

/// Types by their numbers.
pub type TypeNumbers = Seq<usize>;

/// The number of `boolean`.
pub const BOOLEAN: usize = 0;
/// The number of `character`.
pub const CHARACTER: usize = 1;
/// The number of `integer`.
pub const INTEGER: usize = 2;
/// The number of `null`.
pub const NULL: usize = 3;
/// The number of `array [character]`, the type of a text.
pub const TEXT: usize = 4;

/// The types of a program, each once, by number. Two types are equal by structure, the names and
/// the order of members included, so they are equal where their numbers are. The first five are
/// `boolean`, `character`, `integer`, `null` and `array [character]`.
pub struct Types {
    store: Store,
}

impl Drop for Types {
    fn drop(self) {
        let Types { store: _store } = self;
    }
}

impl Model for Types {
    ghost use Rattle.std.specs.Prelude.{List};
    ghost use Rattle.type_table.specs.declared.form.Form.{Form};
    ghost use Rattle.type_table.specs.Tables.{IsTable};

    ghost Value = { List Form };

    ghost view = { λ t. t.store };

    ghost invariant = { λ t. IsTable t.store };
}

impl Types {
    /// The table with the basic types and the array of characters.
    pub fn new(alloc: Global) -> Result<Types, NoMemory>
        ensures { IfOk result (λ types. types ≡ basic_forms) }
    {
        let mut store = Store::new(alloc);
        store.number(Form::Boolean)?;
        store.number(Form::Character)?;
        store.number(Form::Integer)?;
        store.number(Form::Null)?;
        store.number(Form::Array(CHARACTER))?;
        Ok(Types { store })
    }

    /// The number of types.
    pub fn len(&self) -> usize
        ensures { result ≡ length self.now }
    {
        self.store.len()
    }

    /// What a type is made of.
    pub fn form(&self, number: usize) -> Option<&Form>
        ensures { option_copied result ≡ slice_get self.now number }
    {
        self.store.form(number)
    }

    /// What the type of a place in the table is made of.
    pub fn form_at(&self, place: usize) -> Option<&Form>
        ensures { option_copied result ≡ slice_get self.now place }
    {
        self.store.form_at(place)
    }

    /// The depth of a type, from 1 to 64.
    pub fn depth(&self, number: usize) -> Option<u32>
        ensures { result ≡ slice_get (depths self.now) number }
    {
        self.store.depth(number)
    }

    /// The place, from 0, and the type of the first member of a name in a record or union, in
    /// constant time.
    pub fn member(&self, number: usize, name: u32) -> Option<(u32, usize)>
        ensures { result ≡ member_at self.now number name }
    {
        self.store.member(number, name)
    }

    /// The number of a form, which is a new one where it is not there yet; none, and the table is
    /// as before, where it is deeper than 64. On want of memory the table is as before.
    pub fn number(&mut self, form: Form) -> Result<Option<usize>, NoMemory>
        requires parts { IsOver (length self.old) form }
        requires members { HasMember form }
        requires few { HasFew form }
        ensures number { IfOk result (λ o. IfSome o (λ k. slice_get self.new k ≡ Some form)) }
        ensures table { AddsAtMost self.old form self.new }
        ensures too_deep { IfOk result (λ o. IsNone o ↔ (64 < form_depth (depths self.old) form)) }
        ensures refused { IfOk result (λ o. IsNone o → self.new ≡ self.old) }
        ensures err { OnErr result (self.new ≡ self.old) }
    {
        self.store.number(form)
    }

    /// Each form stands in the table once, after its parts, and is at most 64 deep.
    pub fn holds(&self)
        ensures { IsTable self.now }
    {
        let _ = &self.store;
    }
}
