//! The names in scope at a place of a program, by number.
//!
//! Scopes of SISAL nest: an inner definition hides an outer one of the same name until its scope
//! ends. Looking a name up, defining one and ending a definition each take constant time.
#![tactic(auto)]

ghost use Rattle.std.specs.Prelude.{◌≡◌, ℕ, ◌-◌, ◌<◌, ◌≤◌, [], ◌∷◌, length, drop, None, OnOk, OnErr, get_or, option_map, slice_get, vec_len};
ghost use Rattle.name_scope.specs.Newest.{newest};

use flow_value::NoMemory;
use std::alloc::Global;
use std::marker::Model;

/// A definition: the name, its value, and the place of the definition that it hides.
#[derive(Clone, Copy)]
struct Entry<T> {
    name: u32,
    value: T,
    hidden: Option<usize>,
}

/// The definitions in force, the newest first.
#[derive(Drop)]
pub struct Scope<T> {
    entries: Vec<Entry<T>>,
    newest: Vec<Option<usize>>,
}

impl<T> Model for Scope<T> {
    ghost use Rattle.std.specs.Prelude.{List, ℕ, map, reverse};
    ghost use Rattle.std.specs.Coded.{coded_list, coded_ℕ, coded×};
    ghost use Rattle.name_scope.specs.Chain.{definitions, IsIndexed};

    ghost Value = { List (ℕ × T) };

    ghost coded = { coded_list (coded× coded_ℕ T.code) };

    ghost view = { λ s. definitions s.entries.items };

    ghost invariant = { λ s. IsIndexed s.entries.items s.newest.items };
}

impl<T: Copy> Scope<T> {
    /// No definitions; takes no memory.
    pub fn new(alloc: Global) -> Scope<T>
        ensures { result ≡ [] }
    {
        Scope {
            entries: Vec::new(alloc),
            newest: Vec::new(alloc),
        }
    }

    /// The number of definitions.
    pub fn len(&self) -> usize
        ensures { result ≡ length self.now }
    {
        self.entries.len()
    }

    /// The value of the newest definition of the name, if there is one.
    pub fn find(&self, name: u32) -> Option<T>
        ensures { result ≡ newest name self.now }
    {
        match place_in(self.newest.as_slice(), name) {
            Some(place) => value_at(self.entries.as_slice(), place),
            None => None,
        }
    }

    /// Adds a definition. On want of memory all is as it was.
    pub fn define(&mut self, name: u32, value: T) -> Result<(), NoMemory>
        ensures ok { OnOk result (self.new ≡ (name, value) ∷ self.old) }
        ensures err { OnErr result (self.new ≡ self.old) }
    {
        make_place(&mut self.newest, name)?;
        let hidden = self.newest[name as usize];
        let place = self.entries.len();
        self.entries.push(Entry {
            name,
            value,
            hidden,
        })?;
        self.newest[name as usize] = Some(place);
        Ok(())
    }

    /// Ends the newest definition, if there is one.
    fn end_newest(&mut self)
        ensures { self.new ≡ drop 1 self.old }
    {
        if let Some(entry) = self.entries.pop() {
            self.newest[entry.name as usize] = entry.hidden;
        }
    }

    /// Ends all definitions but the oldest `n`.
    pub fn leave(&mut self, n: usize)
        ensures { self.new ≡ drop (length self.old - n) self.old }
    {
        while self.len() > n {
            self.end_newest();
        }
    }
}

/// Makes the places of the names go past this one.
fn make_place(newest: &mut Vec<Option<usize>>, name: u32) -> Result<(), NoMemory>
    ensures same { (x : ℕ) → get_or newest.new.items x None ≡ get_or newest.old.items x None }
    ensures long { vec_len newest.old ≤ vec_len newest.new }
    ensures room { OnOk result (name < vec_len newest.new) }
{
    while newest.len() <= name as usize {
        newest.push(None)?;
    }
    Ok(())
}

/// The place that is kept for a name.
fn place_in(newest: &[Option<usize>], name: u32) -> Option<usize>
    ensures { result ≡ get_or newest.now name None }
{
    match newest.get(name as usize) {
        Some(place) => *place,
        None => None,
    }
}

/// The value of the entry at a place.
fn value_at<T: Copy>(entries: &[Entry<T>], place: usize) -> Option<T>
    ensures { result ≡ option_map (λ e. e.value) (slice_get entries.now place) }
{
    match entries.get(place) {
        Some(entry) => Some(entry.value),
        None => None,
    }
}
