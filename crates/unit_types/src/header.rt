//! Headers of functions.
ghost use Rattle.std.specs.Prelude.{◌≡◌, ◌-◌, ◌≤◌, ◌++◌, ℕ, List, [], All, map, flat_map, drop, length, Contains, IfErr, IfOk, OnOk};
ghost use Rattle.typed_tree.specs.Breaks.{IsTwice};
ghost use Rattle.typed_tree.specs.Faults.{misnames, BreaksHeader};
ghost use Rattle.typed_tree.specs.Typing.{names_of};
ghost use Rattle.flow_value.specs.declared.ty.Ty.{Ty};
ghost use Rattle.sisal_tree.specs.declared.unit.Field.{Field};
ghost use Rattle.sisal_tree.specs.declared.unit.Unit as tree;
ghost use Rattle.sisal_tree.specs.declared.unit.Written.{Written};
ghost use Rattle.typed_tree.specs.Scopes.{AreDistinct};
ghost use Rattle.text_trees.specs.Spelled.{IsType};
ghost use Rattle.unit_types.specs.Faults.{IsFault};
ghost use Rattle.unit_types.specs.Headers.{AreParams, AreResults, Says};
ghost use Rattle.unit_types.specs.Rests.{AreTokensSpelled, HasNames, IsUsed};
ghost use Rattle.unit_types.specs.Headings.{parameters_of, heading_in};

use crate::fault::UnitFault;
use crate::name_set::{NameSet, first_twice};
use crate::type_names::TypeNames;
use crate::written::type_of;
use flow_value::{NoMemory, Numbers, Seq};
use sisal_lex::Token;
use sisal_tree::{Field, Header, Named, Written};
use std::alloc::Global;
use type_table::{TypeNumbers, Types};

/// What the header of a function says. Types are numbers of the table.
#[derive(Drop)]
pub struct Signature {
    /// The line of the function's first word, from 1.
    pub line: u32,
    /// Its name.
    pub name: u32,
    /// The names of its parameters, in order.
    pub parameters: Numbers,
    /// The types of its parameters, in order.
    pub params: TypeNumbers,
    /// The types of its results, in order.
    pub results: TypeNumbers,
    /// How many type definitions stand before it.
    pub known: usize,
}

/// What the header of a function says, whose first word stands on `line`: rule 8 where a parameter
/// stands twice, and those of written types.
pub fn signature_of(
    alloc: Global,
    tokens: &[Token],
    line: u32,
    header: &Header,
    named: &TypeNames,
    types: &mut Types,
) -> Result<Signature, UnitFault>
    requires params { All (λ f. IsType tokens.now f.ty) header.now.params }
    requires results { All (IsType tokens.now) header.now.results }
    ensures heading { IfOk result (λ s. heading_in s ≡ record { line = line; name = header.now.name.name; parameters = parameters_of header.now.params }) }
    ensures known { IfOk result (λ s. s.known ≡ length named.now) }
    ensures many { IfOk result (λ s. length header.now.results ≤ length s.results) }
    ensures used { OnOk result (IsUsed tokens.now types.old types.new) }
    ensures says { IfOk result (λ s. (u : tree.Unit) (known_types : List (ℕ × Ty)) → u.tokens.list ≡ tokens.now → AreTokensSpelled u.tokens.names tokens.now
        → HasNames u.tokens.names types.old named.now known_types → Says u known_types types.new header.now s) }
    ensures breaks { IfErr result (IsFault (λ rule at. (u : tree.Unit) (known_types : List (ℕ × Ty)) → u.tokens.list ≡ tokens.now → AreTokensSpelled u.tokens.names tokens.now
        → HasNames u.tokens.names types.old named.now known_types → BreaksHeader u known_types header.now rule at)) }
{
    let known = named.count();
    let fields = header.params.as_slice();
    let written = header.results.as_slice();
    are_distinct(alloc, fields)?;
    let parameters = names_in(alloc, fields)?;
    let params = params_in(alloc, tokens, fields, named, known, types)?;
    let results = results_in(alloc, tokens, written, named, known, types)?;
    Ok(Signature {
        line,
        name: header.name.name,
        parameters,
        params,
        results,
        known,
    })
}

/// Whether no parameter stands twice: else rule 8.
fn are_distinct(alloc: Global, fields: &[Field]) -> Result<(), UnitFault>
    ensures distinct { OnOk result (AreDistinct (parameters_of fields.now)) }
    ensures twice { IfErr result (IsFault (λ rule line. (rule ≡ 8) × IsTwice (flat_map (λ f. f.names) fields.now) line)) }
{
    let mut seen = NameSet::new(alloc);
    for field in fields {
        if let Some(line) = first_twice(field.names.as_slice(), &mut seen)? {
            return Err(UnitFault::ParameterTwice(line));
        }
    }
    seen.holds();
    Ok(())
}

/// The names of the parameters, in order.
fn names_in(alloc: Global, fields: &[Field]) -> Result<Numbers, NoMemory>
    ensures { IfOk result (λ names. names ≡ parameters_of fields.now) }
{
    let mut names = Seq::new(alloc);
    for field in fields {
        add_names(field.names.as_slice(), &mut names)?;
    }
    Ok(names)
}

fn add_names(named: &[Named], names: &mut Numbers) -> Result<(), NoMemory>
    ensures { OnOk result (names.new ≡ names.old ++ names_of named.now) }
{
    for one in named {
        names.add(one.name)?;
    }
    Ok(())
}

/// The types of the parameters, in order.
fn params_in(
    alloc: Global,
    tokens: &[Token],
    fields: &[Field],
    named: &TypeNames,
    known: usize,
    types: &mut Types,
) -> Result<TypeNumbers, UnitFault>
    requires { All (λ f. IsType tokens.now f.ty) fields.now }
    ensures used { OnOk result (IsUsed tokens.now types.old types.new) }
    ensures params { IfOk result (λ ns. (u : tree.Unit) (known_types : List (ℕ × Ty)) → u.tokens.list ≡ tokens.now → AreTokensSpelled u.tokens.names tokens.now
        → HasNames u.tokens.names types.old (drop (length named.now - known) named.now) known_types → AreParams u known_types types.new fields.now ns) }
    ensures breaks { IfErr result (IsFault (λ rule line. (u : tree.Unit) (known_types : List (ℕ × Ty)) → u.tokens.list ≡ tokens.now → AreTokensSpelled u.tokens.names tokens.now
        → HasNames u.tokens.names types.old (drop (length named.now - known) named.now) known_types → (f : Field) × Contains fields.now f × misnames u known_types f.ty rule line)) }
{
    let mut params = Seq::new(alloc);
    for field in fields {
        let ty = type_of(alloc, tokens, field.ty, named, known, types)?;
        add_types(field.names.as_slice(), ty, &mut params)?;
    }
    Ok(params)
}

fn add_types(named: &[Named], ty: usize, params: &mut TypeNumbers) -> Result<(), NoMemory>
    ensures { OnOk result (params.new ≡ params.old ++ map (λ n. ty) named.now) }
{
    for _one in named {
        params.add(ty)?;
    }
    Ok(())
}

/// The types of the results, in order.
fn results_in(
    alloc: Global,
    tokens: &[Token],
    written: &[Written],
    named: &TypeNames,
    known: usize,
    types: &mut Types,
) -> Result<TypeNumbers, UnitFault>
    requires { All (IsType tokens.now) written.now }
    ensures many { IfOk result (λ ns. length written.now ≤ length ns) }
    ensures used { OnOk result (IsUsed tokens.now types.old types.new) }
    ensures results { IfOk result (λ ns. (u : tree.Unit) (known_types : List (ℕ × Ty)) → u.tokens.list ≡ tokens.now → AreTokensSpelled u.tokens.names tokens.now
        → HasNames u.tokens.names types.old (drop (length named.now - known) named.now) known_types → AreResults u known_types types.new written.now ns) }
    ensures breaks { IfErr result (IsFault (λ rule line. (u : tree.Unit) (known_types : List (ℕ × Ty)) → u.tokens.list ≡ tokens.now → AreTokensSpelled u.tokens.names tokens.now
        → HasNames u.tokens.names types.old (drop (length named.now - known) named.now) known_types → (w : Written) × Contains written.now w × misnames u known_types w rule line)) }
{
    let mut results = Seq::new(alloc);
    for ty in written {
        let number = type_of(alloc, tokens, *ty, named, known, types)?;
        results.add(number)?;
    }
    Ok(results)
}
