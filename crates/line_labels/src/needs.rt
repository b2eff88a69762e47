//! What lines carry, each thing once.
ghost use Rattle.std.specs.Prelude.{◌≡◌, [], length, position, slice_get, OnOk};
ghost use Rattle.line_labels.specs.Needs.{is_same, put, added};

use flow_value::NoMemory;
use indexmap::IndexSet;
use lowering::Carried;
use std::alloc::Global;
use std::marker::Model;

/// What lines carry, each thing once, in the order in which it is met first.
#[derive(Drop)]
pub struct Needs {
    set: IndexSet<Carried>,
}

impl Model for Needs {
    ghost use Rattle.std.specs.Prelude.{List};
    ghost use Rattle.lowering.specs.declared.feed.Carried.{Carried};

    ghost Value = { List Carried };

    ghost view = { λ n. n.set.keys };
}

impl Needs {
    /// Nothing; takes no memory.
    pub fn new(alloc: Global) -> Needs
        ensures { result ≡ [] }
    {
        Needs {
            set: IndexSet::new(alloc),
        }
    }

    /// How many things there are.
    pub fn len(&self) -> usize
        ensures { result ≡ length self.now }
    {
        self.set.len()
    }

    /// The thing at a place.
    pub fn get(&self, place: usize) -> Option<Carried>
        ensures { result ≡ slice_get self.now place }
    {
        match self.set.get_index(place) {
            Some(carried) => Some(*carried),
            None => None,
        }
    }

    /// The place of a thing, if it is there.
    pub fn place(&self, carried: Carried) -> Option<usize>
        ensures { result ≡ position (is_same carried) self.now }
    {
        self.set.get_index_of(&carried)
    }

    /// Adds a thing that a line carries.
    pub fn add(&mut self, carried: Carried) -> Result<(), NoMemory>
        ensures { OnOk result (self.new ≡ put self.old carried) }
    {
        let _ = self.set.insert_full(carried)?;
        Ok(())
    }

    /// Adds what lines carry.
    pub fn add_all(&mut self, carried: &[Carried]) -> Result<(), NoMemory>
        ensures { OnOk result (self.new ≡ added self.old carried.now) }
    {
        for one in carried {
            self.add(*one)?;
        }
        Ok(())
    }
}
