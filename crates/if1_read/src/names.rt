//! The names of the functions of a unit.
ghost use Rattle.std.specs.Prelude.{◌≡◌, ◌||◌, [], List, ℕ, bytes_eq, OnOk};
ghost use Rattle.std.specs.List.{list_any};

use flow_value::{Name, NoMemory};
use indexmap::IndexSet;
use std::alloc::Global;
use std::marker::Model;

/// Names of functions, each once.
#[derive(Drop)]
pub struct Names {
    set: IndexSet<Vec<u8>>,
}

impl Model for Names {
    ghost use Rattle.std.specs.Prelude.{List, ℕ, map, vec_items};

    ghost Value = { List (List ℕ) };

    ghost view = { λ n. map vec_items n.set.keys };
}

impl Names {
    /// No names; takes no memory.
    pub fn new(alloc: Global) -> Names
        ensures { result ≡ [] }
    {
        Names {
            set: IndexSet::new(alloc),
        }
    }

    /// Adds a name.
    pub fn add(&mut self, name: Name) -> Result<(), NoMemory>
        ensures { OnOk result ((t : List ℕ) → list_any (λ n. bytes_eq n t) self.new ≡ (list_any (λ n. bytes_eq n t) self.old || bytes_eq name t)) }
    {
        self.set.insert(name.into_vec())?;
        Ok(())
    }

    /// Whether a text is one of the names.
    pub fn has(&self, text: &[u8]) -> bool
        ensures { result ≡ list_any (λ n. bytes_eq n text.now) self.now }
    {
        self.set.contains(text)
    }
}
