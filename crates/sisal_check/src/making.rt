//! Typed expressions from their typed parts.
ghost use Rattle.breaking_laws.specs.Refusals.{Never, Refuses, Uneven};
ghost use Rattle.sisal_check.specs.Walked.{IsHeadSpelled, given_of, parts_of};
ghost use Rattle.std.specs.Prelude.{Err, IfErr, IfOk, IsTrue, Ok, OnOk, [], ◌↔◌, ◌∷◌, ◌≡◌};
ghost use Rattle.type_rules.specs.Faults.{IsRule, fault_at};
ghost use Rattle.typed_tree.specs.Typing.{with};
ghost use Rattle.typing_laws.specs.Forming.{Finishes, IfElses};
ghost use Rattle.typing_laws.specs.Judged.{IsUsedIn};
ghost use Rattle.type_rules.specs.Applies.{HasField};

use crate::defs::Defined;
use crate::leaves::single;
use crate::state::{Given, Parts, Walk};
use flow_value::Seq;
use type_rules::{Head, Refused, TypeFault, apply};
use type_table::BOOLEAN;
use typed_tree::{TypedExpr, TypedKind};

/// A form over operands, with the operation that it stands for over operands of their types.
#[inline(never)]
pub(crate) fn finish(
    line: u32,
    head: Head,
    parts: Parts,
    given: &Given<'_>,
    walk: &mut Walk,
) -> Result<TypedExpr, TypeFault>
    requires { HasField head }
    ensures used { IsHeadSpelled given.now.spellings.now head → OnOk result (IsUsedIn (given_of given.now) walk.old.types walk.new.types) }
    ensures names { walk.new.names ≡ walk.old.names }
    ensures finishes { IfOk result (λ t. Finishes walk.old.types walk.new.types line head (parts_of parts) t) }
    ensures breaks { IfErr result (IsRule (λ rule at_line. Refuses walk.old.types line head parts.types rule at_line)) }
{
    let Parts { exprs, types } = parts;
    let applied = at_line(
        line,
        apply(given.alloc, &mut walk.types, head, types.as_slice()),
    )?;
    Ok(TypedExpr {
        line,
        types: single(given.alloc, applied.ty)?,
        kind: TypedKind::Apply(applied.operation, exprs),
    })
}

/// A refusal as a fault on a line.
pub(crate) fn at_line<T>(line: u32, made: Result<T, Refused>) -> Result<T, TypeFault>
    ensures ok { IfOk result (λ v. made ≡ Ok v) }
    ensures err { IfErr result (λ fault. (refused : Refused) × (made ≡ Err refused) × (fault ≡ fault_at line refused)) }
{
    match made {
        Ok(value) => Ok(value),
        Err(refused) => Err(refused.at(line)),
    }
}

/// An expression in parentheses, which has the values of the one inside.
#[inline(never)]
pub(crate) fn group(line: u32, inner: TypedExpr, given: &Given<'_>) -> Result<TypedExpr, TypeFault>
    ensures is { IfOk result (λ t. t ≡ with line inner.types (TypedKind.Group (inner ∷ []))) }
    ensures breaks { IfErr result (IsRule (λ rule at_line. Never rule at_line)) }
{
    let types = Seq::from_slice(given.alloc, inner.types.as_slice())?;
    let mut exprs = Seq::new(given.alloc);
    exprs.add(inner)?;
    Ok(TypedExpr {
        line,
        types,
        kind: TypedKind::Group(exprs),
    })
}

/// Definitions with the results behind them.
#[inline(never)]
pub(crate) fn let_in(line: u32, defined: Defined, results: Parts) -> TypedExpr
    ensures is { result ≡ with line results.types (TypedKind.Let defined.exprs results.exprs) }
{
    let Parts { exprs, types } = results;
    TypedExpr {
        line,
        types,
        kind: TypedKind::Let(defined.exprs, exprs),
    }
}

/// `if`: rule 17 where the test is no boolean, or the results of its two parts have other types.
#[inline(never)]
pub(crate) fn if_else(
    line: u32,
    test: Parts,
    then: Parts,
    otherwise: Parts,
) -> Result<TypedExpr, TypeFault>
    ensures is { IfOk result (λ t. IfElses line (parts_of test) (parts_of then) (parts_of otherwise) t) }
    ensures breaks { IfErr result (IsRule (λ rule at_line. Uneven line test.types then.types otherwise.types rule at_line)) }
{
    if !is_boolean(&test) || !are_same(&then, &otherwise) {
        return Err(TypeFault::Rule { rule: 17, line });
    }
    let Parts { exprs, types } = then;
    Ok(TypedExpr {
        line,
        types,
        kind: TypedKind::If(test.exprs, exprs, otherwise.exprs),
    })
}

/// Whether these are of one value, a boolean.
pub(crate) fn is_boolean(parts: &Parts) -> bool
    ensures { IsTrue result ↔ (parts.now.types ≡ 0 ∷ []) }
{
    matches!(parts.types.as_slice(), [BOOLEAN])
}

/// Whether the values have the same types.
fn are_same(one: &Parts, other: &Parts) -> bool
    ensures { IsTrue result ↔ (one.now.types ≡ other.now.types) }
{
    one.types.as_slice() == other.types.as_slice()
}
