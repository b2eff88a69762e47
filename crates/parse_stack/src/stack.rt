//! The stack of values.

ghost use Rattle.std.specs.Prelude.{◌≡◌, ◌∷◌, [], OnOk, MatchOption};

use flow_value::{NoMemory, Seq};
use sisal_grammar::Value;
use std::alloc::Global;
use std::marker::Model;

/// A stack of values: contracts see them in order, the one on top first.
#[derive(Drop)]
pub struct Values {
    items: Seq<Value>,
}

impl Model for Values {
    ghost use Rattle.std.specs.Prelude.{List, reverse};
    ghost use Rattle.sisal_grammar.specs.declared.value.Value as v;
    ghost use Rattle.std.specs.Coded.{codes};
    ghost use Rattle.sisal_grammar.specs.contracts.value.Value as contract;

    ghost Value = { List v.Value };

    ghost coded = { Prim.hlevel (codes, contract.the_row.coded) };

    ghost view = { λ w. reverse w.items };
}

impl Values {
    /// No values; takes no memory.
    pub fn new(alloc: Global) -> Values
        ensures { result ≡ [] }
    {
        Values {
            items: Seq::new(alloc),
        }
    }

    /// Takes the value on top, if there is one.
    pub fn pop(&mut self) -> Option<Value>
        ensures { MatchOption result (self.old ≡ []) (λ x. self.old ≡ x ∷ self.new) }
    {
        self.items.pop()
    }

    /// Puts a value on top.
    pub fn push(&mut self, value: Value) -> Result<(), NoMemory>
        ensures { OnOk result (self.new ≡ value ∷ self.old) }
    {
        self.items.add(value)
    }
}
