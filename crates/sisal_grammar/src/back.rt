//! Lists that are made from their end.
ghost use Rattle.std.specs.Prelude.{◌≡◌, ◌∷◌, [], List, OnOk, MatchOption, reverse};

use sisal_tree::{NoMemory, Seq};
use std::alloc::Global;
use std::marker::Model;

/// A list whose front grows: contracts see its items in order, the front one first.
#[derive(Drop)]
pub struct Back<T> {
    items: Seq<T>,
}

impl<T> Model for Back<T> {
    ghost use Rattle.std.specs.Prelude.{List, reverse};
    ghost use Rattle.std.specs.Coded.{coded_list};

    ghost Value = { List T };

    ghost coded = { coded_list T.code };

    ghost view = { λ s. reverse s.items };
}

impl<T> Back<T> {
    /// No items; takes no memory.
    pub fn new(alloc: Global) -> Back<T>
        ensures { result ≡ [] }
    {
        Back {
            items: Seq::new(alloc),
        }
    }
}

impl<T: Drop> Back<T> {
    /// Puts an item before the others.
    pub fn push(&mut self, item: T) -> Result<(), NoMemory>
        ensures { OnOk result (self.new ≡ item ∷ self.old) }
    {
        self.items.add(item)
    }

    /// Takes the item before all others, if there is one.
    pub fn pop(&mut self) -> Option<T>
        ensures { MatchOption result (self.old ≡ []) (λ x. self.old ≡ x ∷ self.new) }
    {
        self.items.pop()
    }

    /// The items in order.
    pub fn into_seq(self) -> Seq<T>
        ensures { result ≡ self }
    {
        let Back { items } = self;
        let mut items = items.into_vec();
        items.reverse();
        Seq::from_vec(items)
    }
}
