//! The names of one list, each once.
ghost use Rattle.std.specs.Prelude.{◌≡◌, List, [], ◌∷◌, ◌++◌, IfOk, IfSome, Contains, true, false, None};
ghost use Rattle.sisal_tree.specs.declared.unit.Named.{Named};
ghost use Rattle.typed_tree.specs.Scopes.{AreDistinct};
ghost use Rattle.typed_tree.specs.Typing.{names_of};
ghost use Rattle.typed_tree.specs.Breaks.{IsTwice};

use flow_value::NoMemory;
use indexmap::IndexSet;
use sisal_tree::Named;
use std::alloc::Global;
use std::marker::Model;

/// Names in the order in which they were added, each once.
#[derive(Drop)]
pub struct NameSet {
    set: IndexSet<u32>,
}

impl Model for NameSet {
    ghost use Rattle.std.specs.Prelude.{List, ℕ};
    ghost use Rattle.typed_tree.specs.Scopes.{AreDistinct};

    ghost Value = { List ℕ };

    ghost view = { λ n. n.set.keys };

    ghost invariant = { λ n. AreDistinct n.set.keys };
}

impl NameSet {
    /// No names; takes no memory.
    pub fn new(alloc: Global) -> NameSet
        ensures { result ≡ [] }
    {
        NameSet {
            set: IndexSet::new(alloc),
        }
    }

    /// Adds a name, and says whether it is new.
    pub fn add(&mut self, name: u32) -> Result<bool, NoMemory>
        ensures new { IfOk result (λ b. b ≡ true → self.new ≡ self.old ++ name ∷ []) }
        ensures old { IfOk result (λ b. b ≡ false → Contains self.old name) }
    {
        let (_, is_new) = self.set.insert_full(name)?;
        Ok(is_new)
    }

    /// No name is there twice.
    pub fn holds(&self)
        ensures { AreDistinct self.now }
    {
        let _ = &self.set;
    }
}

/// Adds names one after another, up to the first one that is there before it, whose line this is.
pub fn first_twice(names: &[Named], seen: &mut NameSet) -> Result<Option<u32>, NoMemory>
    ensures none { IfOk result (λ o. o ≡ None → seen.new ≡ seen.old ++ names_of names.now) }
    ensures twice { IfOk result (λ o. IfSome o (λ line. (before : List Named) → names_of before ≡ seen.old → IsTwice (before ++ names.now) line)) }
{
    for named in names {
        if !seen.add(named.name)? {
            return Ok(Some(named.line));
        }
    }
    Ok(None)
}
