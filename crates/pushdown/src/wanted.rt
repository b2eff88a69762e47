//! The symbols that are still wanted.

ghost use Rattle.std.specs.Prelude.{◌≡◌, ◌∷◌, List, [], OnOk, MatchOption, true, false, reverse, ◌++◌};
ghost use Rattle.pushdown.specs.declared.Symbol.{Symbol};
ghost use Rattle.pushdown.specs.Engine.{IsStuck};

use crate::Symbol;
use std::alloc::{AllocError, Global};
use std::marker::Model;

/// The symbols that are still wanted, the next first.
#[derive(Drop)]
pub struct Wanted {
    symbols: Vec<Symbol>,
}

impl Model for Wanted {
    ghost Value = { List Symbol };

    ghost view = { λ w. reverse w.symbols.items };
}

impl Wanted {
    /// No symbols; takes no memory.
    pub fn new(alloc: Global) -> Self
        ensures { result ≡ [] }
    {
        Wanted {
            symbols: Vec::new(alloc),
        }
    }

    /// The next symbol, if there is one.
    pub fn next(&self) -> Option<Symbol>
        ensures { MatchOption result (self.now ≡ []) (λ x. (rest : List Symbol) × (self.now ≡ x ∷ rest)) }
    {
        self.symbols.last().copied()
    }

    /// Takes the next symbol off, if there is one.
    pub fn skip(&mut self)
        ensures { (x : Symbol) (rest : List Symbol) → self.old ≡ x ∷ rest → self.new ≡ rest }
    {
        let _ = self.symbols.pop();
    }

    /// Puts symbols before the others.
    pub fn put(&mut self, symbols: &[Symbol]) -> Result<(), AllocError>
        ensures { OnOk result (self.new ≡ symbols.now ++ self.old) }
    {
        for s in symbols.iter().rev() {
            self.symbols.push(*s)?;
        }
        Ok(())
    }

    /// Takes the next symbol off where it wants a token of this class, and tells whether it does.
    pub fn accept(&mut self, token: u8) -> bool
        ensures yes { result ≡ true → self.old ≡ Symbol.Want token ∷ self.new }
        ensures no { result ≡ false → IsStuck token self.old }
    {
        match self.next() {
            Some(Symbol::Want(class)) if class == token => {
                self.skip();
                true
            }
            _ => false,
        }
    }
}
