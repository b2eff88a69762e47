//! Typed programs.
ghost use Rattle.std.specs.Prelude.{◌≡◌};
ghost use Rattle.std.specs.Str.{str_eq_ignore_ascii_case};

use crate::expr::TypedExpr;
use loop_folds::{Name, Numbers, item_at};
use sisal_tree::Seq;
use type_table::{TypeNumbers, Types};

/// A function. Types are numbers of the program's table, names are numbers of its list.
pub struct Function {
    /// The line of its first word, from 1.
    pub line: u32,
    /// Its name.
    pub name: u32,
    /// The names of its parameters, in order.
    pub parameters: Numbers,
    /// The types of its parameters, in order.
    pub params: TypeNumbers,
    /// The types of its results, in order.
    pub results: TypeNumbers,
    /// Its results, none where another text has them.
    pub body: Option<Seq<TypedExpr>>,
}

impl Drop for Function {
    fn drop(self) {
        let Function {
            line: _,
            name: _,
            parameters: _parameters,
            params: _params,
            results: _results,
            body: _body,
        } = self;
    }
}

/// A typed program.
pub struct Program {
    /// The spelling of each name, in small letters.
    pub names: Seq<Name>,
    /// The types, each once.
    pub types: Types,
    /// The functions in the order of the text.
    pub functions: Seq<Function>,
    /// The functions after `define`, by their numbers from 0.
    pub defines: Numbers,
}

impl Drop for Program {
    fn drop(self) {
        let Program {
            names: _names,
            types: _types,
            functions: _functions,
            defines: _defines,
        } = self;
    }
}

impl Program {
    ghost use Rattle.typed_tree.specs.Entries.{entry_of, has_name};

    /// The number of the first function after `define` of a name, whose capital letters count as
    /// small ones.
    pub fn entry(&self, name: &[u8]) -> Option<u32>
        ensures { result ≡ entry_of self.now name.now }
    {
        for number in self.defines.as_slice() {
            if self.has_name(*number, name) {
                return Some(*number);
            }
        }
        None
    }

    /// Whether the function of a number has this name.
    fn has_name(&self, number: u32, name: &[u8]) -> bool
        ensures { result ≡ has_name self.now name.now number }
    {
        let Some(function) = item_at(self.functions.as_slice(), number as usize) else {
            return false;
        };
        match item_at(self.names.as_slice(), function.name as usize) {
            Some(spelling) => is_same(spelling.as_slice(), name),
            None => false,
        }
    }
}

/// Whether two names are the same, in small or capital letters.
fn is_same(one: &[u8], other: &[u8]) -> bool
    ensures { result ≡ str_eq_ignore_ascii_case one.now other.now }
{
    one.eq_ignore_ascii_case(other)
}
