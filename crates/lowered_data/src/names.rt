//! Names in force.
ghost use Rattle.std.specs.Prelude.{◌≡◌, ◌≤◌, ◌-◌, [], ◌∷◌, List, length, slice_get, IfOk, OnOk};
ghost use Rattle.lowering.specs.declared.feed.Wire.{Wire};
ghost use Rattle.lowered_data.specs.Scopes.{Scopes, scopes, with_names, entered, first_names, IsInside, seen, IsAround};

use crate::wires::copy_feed;
use flow_value::{NoMemory, Seq, item_at};
use lowering::{Feed, Wire};
use std::alloc::Global;
use std::marker::Model;

/// Names in force, by their levels. A port stands by the level of its graph, 0 for that of the
/// function, so that nothing changes where a graph inside begins.
#[derive(Drop)]
pub struct Names {
    wires: Seq<Wire>,
    marks: Seq<usize>,
}

impl Model for Names {
    ghost use Rattle.std.specs.Prelude.{length, map, All};
    ghost use Rattle.lowered_data.specs.Scopes.{Scopes, scopes, seen, IsAround};

    ghost Value = { Scopes };

    ghost view = { λ n. scopes (map (seen (length n.marks)) n.wires) n.marks };

    ghost invariant = { λ n. All (λ w. IsAround (length n.marks) w.feed) n.wires };
}

impl Names {
    /// No names; takes no memory.
    pub fn new(alloc: Global) -> Names
        ensures { result ≡ scopes [] [] }
    {
        Names {
            wires: Seq::new(alloc),
            marks: Seq::new(alloc),
        }
    }

    /// The number of names.
    pub fn len(&self) -> usize
        ensures { result ≡ length self.now.here }
    {
        self.wires.len()
    }

    /// What a name stands for, if it is there.
    pub fn find(&self, alloc: Global, place: usize) -> Result<Option<Wire>, NoMemory>
        ensures { IfOk result (λ o. o ≡ slice_get self.now.here place) }
    {
        match item_at(self.wires.as_slice(), place) {
            Some(w) => Ok(Some(seen_from(alloc, self.marks.len(), w)?)),
            None => Ok(None),
        }
    }

    /// Brings names into force.
    pub fn define(&mut self, alloc: Global, wires: &[Wire]) -> Result<(), NoMemory>
        ensures { OnOk result (self.new ≡ with_names self.old wires.now) }
    {
        for w in wires {
            self.define_one(alloc, w)?;
        }
        Ok(())
    }

    /// Brings a name into force.
    fn define_one(&mut self, alloc: Global, w: &Wire) -> Result<(), NoMemory>
        ensures { OnOk result (self.new ≡ with_names self.old (w.now ∷ [])) }
    {
        let kept = kept_at(alloc, self.marks.len(), w)?;
        self.wires.add(kept)?;
        Ok(())
    }

    /// Keeps the first so many names.
    pub fn truncate(&mut self, names: usize)
        ensures { self.new ≡ first_names names self.old }
    {
        self.wires.truncate(names);
    }

    /// Begins a graph inside.
    pub fn enter(&mut self) -> Result<(), NoMemory>
        ensures { OnOk result (self.new ≡ entered self.old) }
    {
        self.marks.add(self.wires.len())?;
        Ok(())
    }

    /// Ends a graph inside: the names are those from before it began.
    pub fn leave(&mut self)
        requires { IsInside self.old }
        ensures { (before : Scopes) (more : List Wire) → self.old ≡ with_names (entered before) more → self.new ≡ before }
    {
        if let Some(names) = self.marks.pop() {
            self.wires.truncate(names);
        }
    }
}

/// A kept wire, seen from a graph of a level.
fn seen_from(alloc: Global, level: usize, w: &Wire) -> Result<Wire, NoMemory>
    requires { IsAround level w.now.feed }
    ensures { IfOk result (λ s. s ≡ seen level w.now) }
{
    let feed = match &w.feed {
        Feed::Port(at, node, port) => Feed::Port(level - *at, *node, *port),
        feed => copy_feed(alloc, feed)?,
    };
    Ok(Wire { feed, ty: w.ty })
}

/// A wire as it is kept, which is seen so from a graph of a level.
fn kept_at(alloc: Global, level: usize, w: &Wire) -> Result<Wire, NoMemory>
    ensures seen { IfOk result (λ k. seen level k ≡ w.now) }
    ensures around { IfOk result (λ k. IsAround level k.feed) }
{
    let feed = match &w.feed {
        Feed::Port(up, node, port) => Feed::Port(level_of(level, *up)?, *node, *port),
        feed => copy_feed(alloc, feed)?,
    };
    Ok(Wire { feed, ty: w.ty })
}

/// The level of a graph so many around one of a level.
fn level_of(level: usize, up: usize) -> Result<usize, NoMemory>
    ensures { IfOk result (λ at. (level - at ≡ up) × (at ≤ level)) }
{
    match level.checked_sub(up) {
        Some(at) => Ok(at),
        None => Err(NoMemory),
    }
}
