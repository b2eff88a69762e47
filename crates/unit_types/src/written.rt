//! Written types.
ghost use Rattle.std.specs.Prelude.{◌≡◌, ◌-◌, ◌^◌, ◌<◌, ◌≤◌, ℕ, List, [], length, drop, slice_range, Some, IfErr, IfOk, OnOk};
ghost use Rattle.flow_value.specs.declared.ty.Ty.{Ty};
ghost use Rattle.type_table.specs.Tables.{IsTable};
ghost use Rattle.sisal_grammar.specs.Placed.{placed};
ghost use Rattle.typed_tree.specs.Types.{IsNumber};
ghost use Rattle.type_table.specs.declared.form.Form.{Form};
ghost use Rattle.typed_tree.specs.Written.{Denotes, Misnames};
ghost use Rattle.text_trees.specs.Spelled.{IsType};
ghost use Rattle.type_rules.specs.Faults.{IsRule};
ghost use Rattle.unit_types.specs.Faults.{IsUnitRule, IsFault};
ghost use Rattle.unit_types.specs.Accepting.{Accepts, a_type, behind, kinds_of, place_of};
ghost use Rattle.unit_types.specs.Reached.{Reads, ReadsFault};
ghost use Rattle.unit_types.specs.Rests.{AreKnown, AreTokensSpelled, IsLater, IsUsed};

use crate::fault::{UnitFault, numbered};
use crate::open::Next;
use crate::step::step;
use crate::type_names::TypeNames;
use sisal_grammar::Back;
use sisal_lex::Token;
use sisal_tree::Written;
use std::alloc::Global;
use type_rules::TypeFault;
use type_table::Types;

/// The type that a written type denotes, by number, where the first `known` type definitions are
/// known (SISAL Language Reference Manual 1.2, types): rule 2 where a name is not known, 3 at a
/// real type, 4 at one deeper than 64, 5 where a member stands twice.
pub fn denoted(
    alloc: Global,
    tokens: &[Token],
    written: Written,
    named: &TypeNames,
    known: usize,
    types: &mut Types,
) -> Result<usize, TypeFault>
    requires { IsType tokens.now written }
    // The table grows, and each of its numbers stands for a type if it did before.
    ensures used { OnOk result (IsUsed tokens.now types.old types.new) }
    ensures there { IfOk result (λ k. k < length types.new) }
    ensures table { OnOk result (IsTable types.new) }
    // In this table and each later one the type of this number is what the tokens denote, where the names of the text are spelled so, and the names of types are those of these types.
    ensures denotes { IfOk result (λ k. (spellings : List (List ℕ)) (known_types : List (ℕ × Ty)) (forms : List Form) → IsLater types.new forms → AreTokensSpelled spellings tokens.now
        → AreKnown forms spellings (drop (length named.now - known) named.now) known_types
        → (a : Ty) → IsNumber forms spellings k a → Denotes spellings known_types (slice_range (placed 0 tokens.now) written.from written.to) a) }
    // The tokens break the rule that is named, on its line.
    ensures misnames { IfErr result (IsRule (λ rule line. (spellings : List (List ℕ)) (known_types : List (ℕ × Ty)) → AreTokensSpelled spellings tokens.now
        → AreKnown types.old spellings (drop (length named.now - known) named.now) known_types
        → Misnames spellings known_types (slice_range (placed 0 tokens.now) written.from written.to) rule line)) }
    ensures rule { IfErr result IsUnitRule }
{
    match type_of(alloc, tokens, written, named, known, types) {
        Ok(number) => Ok(number),
        Err(fault) => Err(numbered(fault)),
    }
}

/// The type that a written type denotes, by number.
pub fn type_of(
    alloc: Global,
    tokens: &[Token],
    written: Written,
    named: &TypeNames,
    known: usize,
    types: &mut Types,
) -> Result<usize, UnitFault>
    requires { IsType tokens.now written }
    // The table grows, and each of its numbers stands for a type if it did before.
    ensures used { OnOk result (IsUsed tokens.now types.old types.new) }
    ensures there { IfOk result (λ k. k < length types.new) }
    ensures table { OnOk result (IsTable types.new) }
    // In this table and each later one the type of this number is what the tokens denote, where the names of the text are spelled so, and the names of types are those of these types.
    ensures denotes { IfOk result (λ k. (spellings : List (List ℕ)) (known_types : List (ℕ × Ty)) (forms : List Form) → IsLater types.new forms → AreTokensSpelled spellings tokens.now
        → AreKnown forms spellings (drop (length named.now - known) named.now) known_types
        → (a : Ty) → IsNumber forms spellings k a → Denotes spellings known_types (slice_range (placed 0 tokens.now) written.from written.to) a) }
    // The tokens break the rule that is named, on its line.
    ensures misnames { IfErr result (IsFault (λ rule line. (spellings : List (List ℕ)) (known_types : List (ℕ × Ty)) → AreTokensSpelled spellings tokens.now
        → AreKnown types.old spellings (drop (length named.now - known) named.now) known_types
        → Misnames spellings known_types (slice_range (placed 0 tokens.now) written.from written.to) rule line)) }
{
    let from = written.from as usize;
    let _ = end_of(&written);
    let to = written.to as usize;
    read(alloc, &tokens[from..to], named, known, types)
}

/// The place after the last token.
fn end_of(written: &Written) -> u32
    ensures is { result ≡ written.now.to }
    ensures small { written.now.to < 2 ^ 32 }
{
    written.to
}

/// The type that tokens denote.
fn read(
    alloc: Global,
    tokens: &[Token],
    named: &TypeNames,
    known: usize,
    types: &mut Types,
) -> Result<usize, UnitFault>
    requires accepted { Accepts (Some (a_type, [])) (kinds_of tokens.now) }
    requires few { length tokens.now ≤ 2 ^ 32 }
    ensures reads { IfOk result (λ k. Reads (drop (length named.now - known) named.now) types.old types.new tokens.now k) }
    ensures table { OnOk result (IsTable types.new) }
    ensures fault { IfErr result (IsFault (ReadsFault (drop (length named.now - known) named.now) types.old tokens.now)) }
{
    let mut stack = Back::new(alloc);
    let mut next = Next::Type;
    for token in tokens {
        types.holds();
        next = step(alloc, token, next, &mut stack, named, known, types)?;
    }
    types.holds();
    Ok(number_of(next))
}

/// The type that was read.
fn number_of(next: Next) -> usize
    requires { place_of next ≡ behind }
    ensures { next ≡ Next.After result }
{
    match next {
        Next::After(ty) => ty,
        _ => unreachable!(),
    }
}
