//! The labels of types that were found.
ghost use Rattle.std.specs.Prelude.{◌≡◌, ℕ, ◌⊎◌, Some, None, OnOk};
ghost use Rattle.type_labels.specs.Known.{known_at};

use flow_value::NoMemory;
use indexmap::IndexMap;
use std::alloc::Global;

/// The labels of types that were found, by how deep a type was allowed to be and by its number.
#[derive(Drop)]
pub struct Known {
    /// By depth and type.
    pub map: IndexMap<(u32, usize), u32>,
}

impl Known {
    /// None; takes no memory.
    pub fn new(alloc: Global) -> Known
        ensures { (depth ty : ℕ) → known_at result depth ty ≡ None }
    {
        Known {
            map: IndexMap::new(alloc),
        }
    }

    /// The label of a type that is at most so deep, if it was found.
    pub fn label(&self, depth: u32, ty: usize) -> Option<u32>
        ensures { result ≡ known_at self.now depth ty }
    {
        match self.map.get(&(depth, ty)) {
            Some(label) => Some(*label),
            None => None,
        }
    }

    /// Keeps the label of a type that is at most so deep.
    pub fn keep(&mut self, depth: u32, ty: usize, label: u32) -> Result<(), NoMemory>
        ensures { OnOk result ((d t l : ℕ) → known_at self.new d t ≡ Some l → (known_at self.old d t ≡ Some l) ⊎ ((d ≡ depth) × (t ≡ ty) × (l ≡ label))) }
    {
        self.map.insert((depth, ty), label)?;
        Ok(())
    }
}
