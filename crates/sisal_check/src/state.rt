//! What the walk over a function's body is given, and what it changes.
ghost use Rattle.sisal_check.specs.Numbered.{AreNumbered};
ghost use Rattle.std.specs.Prelude.{All, OnOk, Some, [], length, slice_get, ◌++◌, ◌<◌, ◌∷◌, ◌≡◌, ◌≤◌};

use flow_value::{Name, NoMemory, Seq};
use name_scope::Scope;
use sisal_lex::Token;
use std::alloc::Global;
use type_table::{TypeNumbers, Types};
use typed_tree::TypedExpr;
use unit_types::{Signature, TypeNames};
use value_names::InForce;

/// What doesn't change in one function's body.
#[derive(Drop)]
pub(crate) struct Given<'u> {
    /// Where memory comes from.
    pub alloc: Global,
    /// The tokens of the text, among which its written types stand.
    pub tokens: &'u [Token],
    /// How the names of the text are spelled.
    pub spellings: &'u [Name],
    /// The names of types.
    pub named: &'u TypeNames,
    /// The functions of the program by number.
    pub functions: &'u [Signature],
    /// The number of the function of a name.
    pub numbers: &'u Scope<u32>,
    /// How many type definitions stand before the function.
    pub known: usize,
    /// Each number is that of a function.
    ghost numbered: { AreNumbered numbers.now (length functions.now) },
    /// Each function has a result.
    ghost results: { All (λ s. 1 ≤ length s.results) functions.now },
    /// No function has more parameters than a text can have tokens.
    ghost parameters: { All (λ s. length s.parameters ≤ 4194304) functions.now },
}

/// What the walk changes.
#[derive(Drop)]
pub(crate) struct Walk {
    /// The types of the program.
    pub types: Types,
    /// The names of values in force.
    pub names: InForce,
}

/// Typed expressions one after another, and the types of all their values.
#[derive(Drop)]
pub(crate) struct Parts {
    /// The expressions.
    pub exprs: Seq<TypedExpr>,
    /// The types of their values.
    pub types: TypeNumbers,
}

impl Parts {
    /// No expressions; takes no memory.
    pub fn new(alloc: Global) -> Parts
        ensures exprs { result.exprs ≡ [] }
        ensures types { result.types ≡ [] }
    {
        Parts {
            exprs: Seq::new(alloc),
            types: Seq::new(alloc),
        }
    }

    /// Adds an expression with all its values.
    pub fn add(&mut self, e: TypedExpr) -> Result<(), NoMemory>
        ensures exprs { OnOk result (self.new.exprs ≡ self.old.exprs ++ e ∷ []) }
        ensures types { OnOk result (self.new.types ≡ self.old.types ++ e.types) }
    {
        self.types.extend(e.types.as_slice())?;
        self.exprs.add(e)
    }
}

/// The header of the function at a place.
pub(crate) fn header_at(functions: &[Signature], place: usize) -> &Signature
    requires { place < length functions.now }
    ensures { slice_get functions.now place ≡ Some result.now }
{
    &functions[place]
}
