//! The names of a text, each with its number.
ghost use Rattle.std.specs.Prelude.{◌≡◌, ◌≤◌, ◌<◌, ◌^◌, length, bytes_eq, OnOk, IfOk, []};
ghost use Rattle.std.specs.List.{position_or_len};
ghost use Rattle.sisal_lex.specs.Names.{used, used_by, kind_in};

use crate::head::Lexeme;
use crate::token::Kind;
use flow_value::{Name, NoMemory, Seq};
use indexmap::IndexSet;
use std::alloc::Global;
use std::marker::Model;

/// The names that a text has used so far, in the order of first use.
#[derive(Drop)]
pub struct Names {
    set: IndexSet<Vec<u8>>,
}

impl Model for Names {
    ghost use Rattle.std.specs.Prelude.{List, ℕ, map, vec_items};

    ghost Value = { List (List ℕ) };

    ghost view = { λ n. map vec_items n.set.keys };
}

impl Names {
    /// No names; takes no memory.
    pub fn new(alloc: Global) -> Names
        ensures { result ≡ [] }
    {
        Names {
            set: IndexSet::new(alloc),
        }
    }

    /// The number of a name, which is a new one where it is used for the first time.
    pub fn number_of(&mut self, name: Name) -> Result<usize, NoMemory>
        ensures names { OnOk result (self.new ≡ used self.old name) }
        ensures number { IfOk result (λ k. k ≡ position_or_len (bytes_eq name) self.old) }
        ensures bound { IfOk result (λ k. k ≤ length self.old) }
    {
        let (number, _) = self.set.insert_full(name.into_vec())?;
        Ok(number)
    }

    /// The list of the names.
    pub fn into_list(self, alloc: Global) -> Result<Seq<Name>, NoMemory>
        ensures { IfOk result (λ names. names ≡ self) }
    {
        let names = self
            .set
            .into_iter()
            .map(|name| Seq::from_vec(name))
            .collect(alloc)?;
        Ok(Seq::from_vec(names))
    }
}

/// A token with its name's number, which is a new one where the name is used for the first time.
pub fn kind_of(names: &mut Names, lexeme: Lexeme) -> Result<Kind, NoMemory>
    requires { length names.old < 2 ^ 32 }
    ensures kind { IfOk result (λ k. k ≡ kind_in names.old lexeme) }
    ensures names { OnOk result (names.new ≡ used_by names.old lexeme) }
{
    match lexeme {
        Lexeme::Named(name) => {
            let number = names.number_of(name)?;
            Ok(Kind::Id(number as u32))
        }
        Lexeme::Plain(kind) => Ok(kind),
    }
}
