//! The forms over operands.
ghost use Rattle.breaking_laws.specs.Broken.{Broken, Misnamed};
ghost use Rattle.breaking_laws.specs.Refusals.{IsUnnamed};
ghost use Rattle.name_scope.specs.Newest.{newest};
ghost use Rattle.sisal_check.specs.Walked.{IsArrayHead, IsErrorHead, IsHeadSpelled, given_of};
ghost use Rattle.std.specs.Prelude.{All, IfErr, IfOk, List, OnOk, Some, length, ℕ, ◌<◌, ◌≡◌, ◌≤◌, ◌^◌};
ghost use Rattle.sisal_tree.specs.declared.expr.ExprKind.TheViews.{out-ExprKind};
ghost use Rattle.type_rules.specs.Faults.{IsRule};
ghost use Rattle.type_rules.specs.Heads.{IsForm};
ghost use Rattle.typed_tree.specs.Typing.{at};
ghost use Rattle.typing_laws.specs.Forming.{AreFound, IsHead, IsRecordHead, fields_of};
ghost use Rattle.typing_laws.specs.Judged.{IsUsedIn};
ghost use Rattle.text_trees.specs.Spelled.{IsType};
ghost use Rattle.text_trees.specs.Parts.{HasParts};
ghost use Rattle.type_rules.specs.Applies.{HasField};

use crate::state::{Given, Walk};
use flow_value::{NoMemory, Numbers, Seq};
use sisal_tree::{ExprKind, FieldValue, Written};
use std::alloc::Global;
use type_rules::{Head, TypeFault, unnamed_head};
use unit_types::denoted;

/// The form of an expression over operands, in which names of types are resolved: rule 2 on the
/// expression's line.
#[inline(never)]
pub(crate) fn head_of(
    kind: &ExprKind,
    line: u32,
    given: &Given<'_>,
    walk: &mut Walk,
) -> Result<Head, TypeFault>
    requires spelled { HasParts given.now.tokens.now (length given.now.spellings.now) walk.old.names.height (out-ExprKind kind.now) }
    requires form { IsForm (out-ExprKind kind.now) }
    ensures used { OnOk result (IsUsedIn (given_of given.now) walk.old.types walk.new.types) }
    ensures names { OnOk result (walk.new.names ≡ walk.old.names) }
    ensures head { IfOk result (λ h. IsHead (given_of given.now) walk.new.types kind.now h) }
    ensures spelled { IfOk result (λ h. IsHeadSpelled given.now.spellings.now h) }
    ensures field { IfOk result HasField }
    ensures breaks { IfErr result (IsRule (λ rule at_line. Broken (given_of given.now) walk.old.types walk.old.names (at line kind.now) rule at_line)) }
{
    walk.types.holds();
    match kind {
        ExprKind::ErrorOf(written) => error_of(*written, given, walk),
        ExprKind::Replace(_, vs) => Ok(Head::Replace(names_of(given.alloc, vs.as_slice())?)),
        ExprKind::Array(name, elements) => array_of(*name, elements.is_some(), line, given),
        ExprKind::Stream(name, _) => Ok(Head::Stream(type_of(*name, line, given)?)),
        ExprKind::Record(name, vs) => record_of(*name, vs.as_slice(), line, given),
        ExprKind::Union(name, tag, _) => Ok(Head::Union(type_named(*name, line, given)?, *tag)),
        _ => Ok(unnamed_head(kind)),
    }
}

fn error_of(written: Written, given: &Given<'_>, walk: &mut Walk) -> Result<Head, TypeFault>
    requires { IsType given.now.tokens.now written }
    ensures used { OnOk result (IsUsedIn (given_of given.now) walk.old.types walk.new.types) }
    ensures names { OnOk result (walk.new.names ≡ walk.old.names) }
    ensures head { IfOk result (λ h. IsErrorHead (given_of given.now) walk.new.types written h) }
    ensures breaks { IfErr result (IsRule (λ rule at_line. Misnamed (given_of given.now) walk.old.types written rule at_line)) }
{
    walk.types.holds();
    let ty = denoted(
        given.alloc,
        given.tokens,
        written,
        given.named,
        given.known,
        &mut walk.types,
    )?;
    Ok(Head::ErrorOf(ty))
}

fn record_of(
    name: Option<u32>,
    vs: &[FieldValue],
    line: u32,
    given: &Given<'_>,
) -> Result<Head, TypeFault>
    requires spelled { All (λ v. v.field.name < length given.now.spellings.now) vs.now }
    requires some { 1 ≤ length vs.now }
    ensures head { IfOk result (λ h. IsRecordHead (given_of given.now) name vs.now h) }
    ensures field { IfOk result HasField }
    ensures breaks { IfErr result (IsRule (λ rule at_line. IsUnnamed (given_of given.now).named name line rule at_line)) }
{
    let ty = type_of(name, line, given)?;
    let names = names_of(given.alloc, vs)?;
    Ok(Head::Record(ty, names))
}

/// An array with elements, or without.
fn array_of(
    name: Option<u32>,
    has_elements: bool,
    line: u32,
    given: &Given<'_>,
) -> Result<Head, TypeFault>
    ensures head { IfOk result (λ h. IsArrayHead (given_of given.now) name has_elements h) }
    ensures spelled { IfOk result (λ h. (spellings : List (List ℕ)) → IsHeadSpelled spellings h) }
    ensures field { IfOk result HasField }
    ensures breaks { IfErr result (IsRule (λ rule at_line. IsUnnamed (given_of given.now).named name line rule at_line)) }
{
    let ty = type_of(name, line, given)?;
    if has_elements {
        Ok(Head::Array(ty))
    } else {
        Ok(Head::EmptyArray(ty))
    }
}

/// The type of a constructor's name, where it has one.
fn type_of(name: Option<u32>, line: u32, given: &Given<'_>) -> Result<Option<usize>, TypeFault>
    ensures found { IfOk result (λ n. AreFound (given_of given.now).named name n) }
    ensures breaks { IfErr result (IsRule (λ rule at_line. IsUnnamed (given_of given.now).named name line rule at_line)) }
{
    match name {
        Some(name) => Ok(Some(type_named(name, line, given)?)),
        None => Ok(None),
    }
}

/// The type of a name: rule 2 where it is not known.
fn type_named(name: u32, line: u32, given: &Given<'_>) -> Result<usize, TypeFault>
    ensures found { IfOk result (λ n. newest name (given_of given.now).named ≡ Some n) }
    ensures breaks { IfErr result (IsRule (λ rule at_line. IsUnnamed (given_of given.now).named (Some name) line rule at_line)) }
{
    match given.named.find(name, given.known) {
        Some(ty) => Ok(ty),
        None => Err(TypeFault::Rule { rule: 2, line }),
    }
}

/// The name of a field.
fn name_of(v: &FieldValue) -> u32
    ensures is { result ≡ v.now.field.name }
    ensures small { result < 2 ^ 32 }
{
    v.field.name
}

/// The names of fields, in order.
fn names_of(alloc: Global, vs: &[FieldValue]) -> Result<Numbers, NoMemory>
    ensures names { IfOk result (λ names. names ≡ fields_of vs.now) }
    ensures small { IfOk result (λ names. All (λ x. x < 2 ^ 32) names) }
{
    let mut names = Seq::new(alloc);
    for v in vs {
        names.add(name_of(v))?;
    }
    Ok(names)
}
