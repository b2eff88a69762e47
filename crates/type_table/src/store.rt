//! The forms by number, with what finds them.
ghost use Rattle.std.specs.Prelude.{◌≡◌, ℕ, ◌+◌, ◌^◌, ◌<◌, ◌≤◌, ◌≢◌, [], ◌∷◌, ◌++◌, length, map, position, slice_get, get_or, Some, None, IfSome, IfOk, OnOk, OnErr, IsNone, ◌↔◌};
ghost use Rattle.std.specs.Option.{option_copied};
ghost use Rattle.type_table.specs.Forms.{deepest, form_depth, first_member, members_of};
ghost use Rattle.type_table.specs.Tables.{depths, member_at, HasFew, HasMember, IsOver, IsWell};
ghost use Rattle.type_table.specs.Keys.{key_of, has_key, with_form};
ghost use Rattle.type_table.specs.Kept.{place_of, named_at};

use crate::form::{Form, Member, members_of};
use crate::key::key_of;
use flow_value::{NoMemory, item_at};
use indexmap::IndexMap;
use std::alloc::Global;
use std::marker::Model;

/// No type is deeper.
pub const DEEPEST: u32 = 64;

/// A form with its depth.
pub struct Known {
    /// The form.
    pub form: Form,
    /// The depth, from 1 to 64.
    pub depth: u32,
}

impl Drop for Known {
    fn drop(self) {
        let Known {
            form: _form,
            depth: _,
        } = self;
    }
}

/// The forms in the order of their numbers, by their keys, and the places of the members by type
/// and name. A place may be noted for a type that is not there yet.
pub struct Store {
    forms: IndexMap<Vec<usize>, Known>,
    places: IndexMap<(usize, u32), u32>,
}

impl Drop for Store {
    fn drop(self) {
        let Store {
            forms: _forms,
            places: _places,
        } = self;
    }
}

impl Model for Store {
    ghost use Rattle.std.specs.Prelude.{List, vec_items};
    ghost use Rattle.type_table.specs.declared.form.Form.{Form};
    ghost use Rattle.type_table.specs.Kept.{forms_in, IsKept};

    ghost Value = { List Form };

    ghost view = { λ s. forms_in s.forms.entries };

    ghost invariant = { λ s. IsKept vec_items s.forms.entries s.places };
}

impl Store {
    /// No forms; takes no memory.
    pub fn new(alloc: Global) -> Store
        ensures { result ≡ [] }
    {
        Store {
            forms: IndexMap::new(alloc),
            places: IndexMap::new(alloc),
        }
    }

    /// The number of forms.
    pub fn len(&self) -> usize
        ensures { result ≡ length self.now }
    {
        self.forms.len()
    }

    /// The form of a number.
    pub fn form(&self, number: usize) -> Option<&Form>
        ensures { option_copied result ≡ slice_get self.now number }
    {
        self.form_at(number)
    }

    /// The form of a place among all forms.
    pub fn form_at(&self, place: usize) -> Option<&Form>
        ensures { option_copied result ≡ slice_get self.now place }
    {
        match self.forms.get_index(place) {
            Some((_, known)) => Some(&known.form),
            None => None,
        }
    }

    /// The depth of the type of a number.
    pub fn depth(&self, number: usize) -> Option<u32>
        ensures value { result ≡ slice_get (depths self.now) number }
        ensures small { IfSome result (λ d. d ≤ 64) }
    {
        match self.forms.get_index(number) {
            Some((_, known)) => Some(known.depth),
            None => None,
        }
    }

    /// The place and the type of the first member of a name.
    pub fn member(&self, number: usize, name: u32) -> Option<(u32, usize)>
        ensures { result ≡ member_at self.now number name }
    {
        let place = *self.places.get(&(number, name))?;
        let members = members_of(self.form(number)?);
        named_at(members, place, name)
    }

    /// The number of a form, which is a new one where it is not there yet; none where it is too
    /// deep.
    pub fn number(&mut self, form: Form) -> Result<Option<usize>, NoMemory>
        requires parts { IsOver (length self.old) form }
        requires members { HasMember form }
        requires few { HasFew form }
        ensures number { IfOk result (λ o. IfSome o (λ k. slice_get self.new k ≡ Some form)) }
        ensures table { IfOk result (λ o. IfSome o (λ k. self.new ≡ with_form self.old form)) }
        ensures deep { IfOk result (λ o. IsNone o ↔ (64 < form_depth (depths self.old) form)) }
        ensures refused { IfOk result (λ o. IsNone o → self.new ≡ self.old) }
        ensures err { OnErr result (self.new ≡ self.old) }
        ensures well { IsWell self.new }
    {
        let depth = self.depth_over(&form);
        if depth > DEEPEST {
            return Ok(None);
        }
        let key = key_of(*self.forms.allocator(), &form)?;
        if let Some(number) = self.place(&key) {
            return Ok(Some(number));
        }
        let number = self.add(key, form, depth)?;
        Ok(Some(number))
    }

    /// The number of the form with a key.
    fn place(&self, key: &Vec<usize>) -> Option<usize>
        ensures { result ≡ position (has_key key.now.items) self.now }
    {
        self.forms.get_index_of(key)
    }

    /// The depth of a form over the types that are there.
    fn depth_over(&self, form: &Form) -> u32
        ensures value { result ≡ form_depth (depths self.now) form.now }
        ensures small { result ≤ 65 }
    {
        match form {
            Form::Array(ty) | Form::Stream(ty) => 1 + self.part_depth(*ty),
            Form::Record(members) | Form::Union(members) => 1 + self.deepest(members.as_slice()),
            _ => 1,
        }
    }

    /// The depth of the type of a number, 0 where there is none.
    fn part_depth(&self, ty: usize) -> u32
        ensures value { result ≡ get_or (depths self.now) ty 0 }
        ensures small { result ≤ 64 }
    {
        match self.depth(ty) {
            Some(depth) => depth,
            None => 0,
        }
    }

    /// The depth of the deepest of the members.
    fn deepest(&self, members: &[Member]) -> u32
        ensures value { result ≡ deepest (depths self.now) (map (λ m. m.ty) members.now) }
        ensures small { result ≤ 64 }
    {
        let mut most = 0;
        for member in members {
            most = self.part_depth(member.ty).max(most);
        }
        most
    }

    /// Adds a form that is not there yet, and gives its number.
    fn add(&mut self, key: Vec<usize>, form: Form, depth: u32) -> Result<usize, NoMemory>
        requires parts { IsOver (length self.old) form }
        requires members { HasMember form }
        requires few { HasFew form }
        requires deep { depth ≡ form_depth (depths self.old) form }
        requires shallow { depth ≤ 64 }
        requires keyed { key.items ≡ key_of form }
        requires absent { position (has_key (key_of form)) self.old ≡ None }
        ensures number { IfOk result (λ k. k ≡ length self.old) }
        ensures ok { OnOk result (self.new ≡ self.old ++ form ∷ []) }
        ensures err { OnErr result (self.new ≡ self.old) }
    {
        let number = self.forms.len();
        note(&mut self.places, number, members_of(&form))?;
        self.forms.insert(key, Known { form, depth })?;
        Ok(number)
    }
}

/// The place and the type of the member at a place, where it has the name.
fn named_at(members: &[Member], place: u32, name: u32) -> Option<(u32, usize)>
    ensures { result ≡ named_at members.now place name }
{
    let member = item_at(members, place as usize)?;
    if member.name == name {
        Some((place, member.ty))
    } else {
        None
    }
}

/// Notes the place of the first member of each name. Notes on other types stay.
fn note(
    places: &mut IndexMap<(usize, u32), u32>,
    ty: usize,
    members: &[Member],
) -> Result<(), NoMemory>
    requires { length members.now ≤ 2 ^ 32 }
    ensures here { OnOk result ((name : ℕ) → IfSome (first_member name 0 members.now) (λ m. place_of places.new ty name ≡ Some m.0)) }
    ensures others { (k name : ℕ) → k ≢ ty → place_of places.new k name ≡ place_of places.old k name }
{
    let mut at = members.len();
    while at > 0 {
        at -= 1;
        places.insert((ty, members[at].name), at as u32)?;
    }
    Ok(())
}
