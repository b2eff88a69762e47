//! Expressions where one value is wanted, and lists of expressions.
ghost use Rattle.breaking_laws.specs.Broken.{BrokenField, BrokenIn, BrokenOne};
ghost use Rattle.breaking_laws.specs.Refusals.{NotOne};
ghost use Rattle.sisal_check.specs.Walked.{given_of, parts_of};
ghost use Rattle.std.specs.Prelude.{All, IfErr, IfOk, OnOk, [], length, map, ◌++◌, ◌+◌, ◌∷◌, ◌≡◌, ◌≤◌};
ghost use Rattle.type_rules.specs.Faults.{IsRule};
ghost use Rattle.typing_laws.specs.Judged.{Adds, AddsSingle, AllOnes, AllTyped, IsUsedIn};
ghost use Rattle.text_trees.specs.Spelled.{IsSpelled};
ghost use Rattle.text_trees.specs.Parts.{IsValue};

use crate::state::{Given, Parts, Walk};
use crate::typed::typed;
use sisal_tree::{Expr, FieldValue};
use type_rules::TypeFault;
use typed_tree::TypedExpr;

/// Types an expression that has one value: rule 16, on its line, where it has another number.
#[cycle(walk)]
pub(crate) fn one(
    e: &Expr,
    parts: &mut Parts,
    given: &Given<'_>,
    walk: &mut Walk,
) -> Result<(), TypeFault>
    requires spelled { IsSpelled given.now.tokens.now (length given.now.spellings.now) walk.old.names.height e.now }
    ensures used { OnOk result (IsUsedIn (given_of given.now) walk.old.types walk.new.types) }
    ensures names { OnOk result (walk.new.names ≡ walk.old.names) }
    ensures adds { OnOk result (Adds (parts_of parts.old) (parts_of parts.new) (AllOnes (given_of given.now) walk.new.types walk.old.names (e.now ∷ []))) }
    ensures single { OnOk result (AddsSingle (parts_of parts.old) (parts_of parts.new)) }
    ensures breaks { IfErr result (IsRule (λ rule at_line. BrokenOne (given_of given.now) walk.old.types walk.old.names e.now rule at_line)) }
{
    let made = typed(e, given, walk)?;
    walk.types.holds();
    keep_one(made, parts)
}

/// Types expressions in order, each with all its values.
#[cycle(walk)]
pub(crate) fn many(
    es: &[Expr],
    parts: &mut Parts,
    given: &Given<'_>,
    walk: &mut Walk,
) -> Result<(), TypeFault>
    requires spelled { All (IsSpelled given.now.tokens.now (length given.now.spellings.now) walk.old.names.height) es.now }
    ensures used { OnOk result (IsUsedIn (given_of given.now) walk.old.types walk.new.types) }
    ensures names { OnOk result (walk.new.names ≡ walk.old.names) }
    ensures adds { OnOk result (Adds (parts_of parts.old) (parts_of parts.new) (AllTyped (given_of given.now) walk.new.types walk.old.names es.now)) }
    ensures breaks { IfErr result (IsRule (λ rule at_line. BrokenIn (given_of given.now) walk.old.types walk.old.names es.now rule at_line)) }
    ensures some { OnOk result (length parts.old.types + length es.now ≤ length parts.new.types) }
{
    for e in es {
        let made = typed(e, given, walk)?;
        parts.add(made)?;
    }
    Ok(())
}

/// The expressions of a list, typed.
#[cycle(walk)]
pub(crate) fn all(es: &[Expr], given: &Given<'_>, walk: &mut Walk) -> Result<Parts, TypeFault>
    requires spelled { All (IsSpelled given.now.tokens.now (length given.now.spellings.now) walk.old.names.height) es.now }
    ensures used { OnOk result (IsUsedIn (given_of given.now) walk.old.types walk.new.types) }
    ensures names { OnOk result (walk.new.names ≡ walk.old.names) }
    ensures typed { IfOk result (λ p. AllTyped (given_of given.now) walk.new.types walk.old.names es.now p.exprs p.types) }
    ensures breaks { IfErr result (IsRule (λ rule at_line. BrokenIn (given_of given.now) walk.old.types walk.old.names es.now rule at_line)) }
    ensures some { IfOk result (λ p. length es.now ≤ length p.types) }
{
    let mut parts = Parts::new(given.alloc);
    many(es, &mut parts, given, walk)?;
    Ok(parts)
}

/// The expression, which has one value.
#[cycle(walk)]
pub(crate) fn only(e: &Expr, given: &Given<'_>, walk: &mut Walk) -> Result<Parts, TypeFault>
    requires spelled { IsSpelled given.now.tokens.now (length given.now.spellings.now) walk.old.names.height e.now }
    ensures used { OnOk result (IsUsedIn (given_of given.now) walk.old.types walk.new.types) }
    ensures names { OnOk result (walk.new.names ≡ walk.old.names) }
    ensures typed { IfOk result (λ p. AllOnes (given_of given.now) walk.new.types walk.old.names (e.now ∷ []) p.exprs p.types) }
    ensures single { IfOk result (λ p. length p.types ≡ 1) }
    ensures breaks { IfErr result (IsRule (λ rule at_line. BrokenOne (given_of given.now) walk.old.types walk.old.names e.now rule at_line)) }
{
    let mut parts = Parts::new(given.alloc);
    one(e, &mut parts, given, walk)?;
    Ok(parts)
}

/// Types the values of fields, each of which has one value.
#[cycle(walk)]
pub(crate) fn fields(
    vs: &[FieldValue],
    parts: &mut Parts,
    given: &Given<'_>,
    walk: &mut Walk,
) -> Result<(), TypeFault>
    requires spelled { All (IsValue given.now.tokens.now (length given.now.spellings.now) walk.old.names.height) vs.now }
    ensures used { OnOk result (IsUsedIn (given_of given.now) walk.old.types walk.new.types) }
    ensures names { OnOk result (walk.new.names ≡ walk.old.names) }
    ensures adds { OnOk result (Adds (parts_of parts.old) (parts_of parts.new) (AllOnes (given_of given.now) walk.new.types walk.old.names (map (λ v. v.value) vs.now))) }
    ensures breaks { IfErr result (IsRule (λ rule at_line. BrokenField (given_of given.now) walk.old.types walk.old.names vs.now rule at_line)) }
{
    for v in vs {
        one(&v.value, parts, given, walk)?;
    }
    Ok(())
}

/// Adds an expression that has one value.
fn keep_one(made: TypedExpr, parts: &mut Parts) -> Result<(), TypeFault>
    ensures exprs { OnOk result (parts.new.exprs ≡ parts.old.exprs ++ made ∷ []) }
    ensures types { OnOk result (parts.new.types ≡ parts.old.types ++ made.types) }
    ensures one { OnOk result (length made.types ≡ 1) }
    ensures breaks { IfErr result (IsRule (λ rule at_line. NotOne made rule at_line)) }
{
    if made.types.len() != 1 {
        return Err(TypeFault::Rule {
            rule: 16,
            line: made.line,
        });
    }
    parts.add(made)?;
    Ok(())
}
