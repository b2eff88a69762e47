//! The names that are in force.
ghost use Rattle.std.specs.Prelude.{◌≡◌, ◌<◌, ◌≤◌, ◌+◌, length, map, min, OnOk, OnErr, IfOk};
ghost use Rattle.name_scope.specs.Newest.{newest};
ghost use Rattle.value_names.specs.Scopes.{define, define_all, hidden, left, loop_value, mark_of, no_names, not_yet, old_name, place_in_loop, seen, twice_in, under_old};

use crate::value::{Meaning, Value};
use flow_value::{NoMemory, Seq};
use name_scope::Scope;
use sisal_tree::Named;
use std::alloc::Global;
use std::marker::Model;

/// How many names, old names and levels are in force.
#[derive(Clone, Copy)]
pub struct Mark {
    names: usize,
    olds: usize,
    height: u32,
}

/// The names in force, and those that `old` may stand before.
#[derive(Drop)]
pub struct InForce {
    names: Scope<Meaning>,
    olds: Scope<Value>,
    height: u32,
    listed: Scope<()>,
}

impl Model for InForce {
    ghost use Rattle.value_names.specs.Names.{Names};

    ghost Value = { Names };

    ghost view = { λ s. record { names = s.names; olds = s.olds; height = s.height } };
}

impl InForce {
    /// No names; takes no memory.
    pub fn new(alloc: Global) -> InForce
        ensures { result ≡ no_names }
    {
        InForce {
            names: Scope::new(alloc),
            olds: Scope::new(alloc),
            height: 0,
            listed: Scope::new(alloc),
        }
    }

    /// The level of the next value.
    pub fn height(&self) -> u32
        ensures { result ≡ self.now.height }
    {
        self.height
    }

    /// What a name stands for; nothing where it is not in force, or is a loop name that the turn
    /// defines later.
    pub fn find(&self, name: u32) -> Option<Value>
        ensures { result ≡ seen (newest name self.now.names) }
    {
        match self.names.find(name) {
            Some(Meaning::At(value)) => Some(value),
            _ => None,
        }
    }

    /// What `old` and a name stand for.
    pub fn find_old(&self, name: u32) -> Option<Value>
        ensures { result ≡ newest name self.now.olds }
    {
        self.olds.find(name)
    }

    /// A name comes into force at the next level. On want of memory all is as it was.
    pub fn define(&mut self, name: u32, ty: usize) -> Result<(), NoMemory>
        requires { self.old.height < 4294967295 }
        ensures ok { OnOk result (self.new ≡ define name ty self.old) }
        ensures err { OnErr result (self.new ≡ self.old) }
    {
        let level = self.height;
        self.names.define(name, Meaning::At(Value { level, ty }))?;
        self.height = level + 1;
        Ok(())
    }

    /// Names with these types come into force, one after another.
    pub fn define_all(&mut self, names: &[Named], types: &[usize]) -> Result<(), NoMemory>
        requires { self.old.height + length names.now ≤ 4294967295 }
        ensures { OnOk result (self.new ≡ define_all names.now types.now self.old) }
    {
        let mut place = 0;
        while place < names.len() && place < types.len() {
            self.define(names[place].name, types[place])?;
            place += 1;
        }
        Ok(())
    }

    /// How many names, old names and levels are in force.
    pub fn mark(&self) -> Mark
        ensures { result ≡ mark_of self.now }
    {
        Mark {
            names: self.names.len(),
            olds: self.olds.len(),
            height: self.height,
        }
    }

    /// Names, old names and levels are as many as they were at the mark.
    pub fn leave(&mut self, mark: Mark)
        ensures { self.new ≡ left mark self.old }
    {
        self.names.leave(mark.names);
        self.olds.leave(mark.olds);
        self.height = mark.height;
    }

    /// A turn begins: the loop names, of which the first has the level `first`, come under `old`,
    /// and those that the turn defines stand for nothing until then.
    pub fn begin_turn(
        &mut self,
        loop_names: &[Named],
        types: &[usize],
        first: u32,
        targets: &[Named],
    ) -> Result<(), NoMemory>
        requires { first + min (length loop_names.now) (length types.now) ≤ self.old.height }
        ensures { OnOk result (self.new ≡ not_yet first targets.now (under_old first loop_names.now types.now self.old)) }
    {
        self.bring_under_old(loop_names, types, first)?;
        self.hide(targets, first)
    }

    /// The loop names come under `old`.
    fn bring_under_old(
        &mut self,
        names: &[Named],
        types: &[usize],
        first: u32,
    ) -> Result<(), NoMemory>
        requires { first + min (length names.now) (length types.now) ≤ self.old.height }
        ensures { OnOk result (self.new ≡ under_old first names.now types.now self.old) }
    {
        // All levels are below the height, a number of 32 bits.
        let _height = self.height;
        let mut level = first;
        let mut place = 0;
        while place < names.len() && place < types.len() {
            self.define_old(names[place].name, level, types[place])?;
            level += 1;
            place += 1;
        }
        Ok(())
    }

    /// A loop name of this level comes under `old`.
    fn define_old(&mut self, name: u32, level: u32, ty: usize) -> Result<(), NoMemory>
        ensures { OnOk result (self.new ≡ old_name level name ty self.old) }
    {
        self.olds.define(name, Value { level, ty })
    }

    /// The targets that are loop names stand for nothing.
    fn hide(&mut self, targets: &[Named], first: u32) -> Result<(), NoMemory>
        ensures { OnOk result (self.new ≡ not_yet first targets.now self.old) }
    {
        let mut place = targets.len();
        while place > 0 {
            place -= 1;
            self.hide_one(targets[place].name, first)?;
        }
        Ok(())
    }

    /// A name, if it is a loop name, stands for nothing.
    fn hide_one(&mut self, name: u32, first: u32) -> Result<(), NoMemory>
        ensures { OnOk result (self.new ≡ hidden first name self.old) }
    {
        match self.loop_value(name, first) {
            Some(_) => self.names.define(name, Meaning::Later),
            None => Ok(()),
        }
    }

    /// What a name of the innermost loop, whose first name has the level `first`, stands for under
    /// `old`.
    pub fn loop_value(&self, name: u32, first: u32) -> Option<Value>
        ensures { result ≡ loop_value first (newest name self.now.olds) }
    {
        let value = self.olds.find(name)?;
        if value.level < first {
            return None;
        }
        Some(value)
    }

    /// For each target the place, from 0, among the loop names of the one that it renews, if it is
    /// one.
    pub fn renewed(
        &self,
        alloc: Global,
        targets: &[Named],
        first: u32,
    ) -> Result<Seq<Option<u32>>, NoMemory>
        ensures { IfOk result (λ places. places ≡ map (λ t. place_in_loop first t.name self.now) targets.now) }
    {
        let mut places = Seq::new(alloc);
        for target in targets {
            places.add(self.place_in_loop(target.name, first))?;
        }
        Ok(places)
    }

    /// The place of a name among the loop names, if it is one.
    fn place_in_loop(&self, name: u32, first: u32) -> Option<u32>
        ensures { result ≡ place_in_loop first name self.now }
    {
        match self.loop_value(name, first) {
            Some(value) => value.level.checked_sub(first),
            None => None,
        }
    }

    /// The line of the first name that stands before it in the list, if there is one.
    pub fn first_twice(&mut self, names: &[Named]) -> Result<Option<u32>, NoMemory>
        ensures same { self.new ≡ self.old }
        ensures line { IfOk result (λ o. o ≡ twice_in names.now) }
    {
        first_twice(names, &mut self.listed)
    }
}

/// The line of the first name that stands before it in the list, if there is one.
fn first_twice(names: &[Named], listed: &mut Scope<()>) -> Result<Option<u32>, NoMemory>
    ensures { IfOk result (λ o. o ≡ twice_in names.now) }
{
    listed.leave(0);
    for named in names {
        if listed.find(named.name).is_some() {
            return Ok(Some(named.line));
        }
        listed.define(named.name, ())?;
    }
    Ok(None)
}
