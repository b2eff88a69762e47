//! Calls.
ghost use Rattle.breaking_laws.specs.Refusals.{IsNoBuiltIn, OtherParams, RefusesCall};
ghost use Rattle.sisal_check.specs.Walked.{given_of, parts_of};
ghost use Rattle.std.specs.Prelude.{IfErr, IfNone, IfOk, IfSome, OnOk, length, ◌<◌, ◌≡◌};
ghost use Rattle.type_rules.specs.Faults.{IsRule};
ghost use Rattle.typing_laws.specs.Forming.{Calls, CallsOf, IsBuiltIn};
ghost use Rattle.typing_laws.specs.Judged.{IsUsedIn};

use crate::making::finish;
use crate::state::{Given, Parts, Walk, header_at};
use flow_value::{Seq, item_at};
use type_rules::{Head, TypeFault};
use typed_tree::{BuiltIn, TypedExpr, TypedKind, built_in_named};

/// A call of a function of the program, or of one that is built in: rule 11 where the name is
/// neither.
#[inline(never)]
pub(crate) fn call(
    line: u32,
    name: u32,
    operands: Parts,
    given: &Given<'_>,
    walk: &mut Walk,
) -> Result<TypedExpr, TypeFault>
    ensures used { OnOk result (IsUsedIn (given_of given.now) walk.old.types walk.new.types) }
    ensures names { walk.new.names ≡ walk.old.names }
    ensures calls { IfOk result (λ t. Calls (given_of given.now) walk.old.types walk.new.types line name (parts_of operands) t) }
    ensures line { IfOk result (λ t. t.line ≡ line) }
    ensures breaks { IfErr result (IsRule (λ rule at_line. RefusesCall (given_of given.now) walk.old.types line name operands.types rule at_line)) }
{
    if let Some(number) = given.numbers.find(name) {
        return call_of(line, number, operands, given);
    }
    match built_in(name, given) {
        Some(built_in) => finish(line, Head::BuiltIn(built_in), operands, given, walk),
        None => Err(TypeFault::Rule { rule: 11, line }),
    }
}

/// A call of the function of a number: rule 12 where the operands have other types than its
/// parameters.
fn call_of(
    line: u32,
    number: u32,
    operands: Parts,
    given: &Given<'_>,
) -> Result<TypedExpr, TypeFault>
    requires { number < length given.now.functions.now }
    ensures calls { IfOk result (λ t. CallsOf (given_of given.now) line number (parts_of operands) t) }
    ensures breaks { IfErr result (IsRule (λ rule at_line. OtherParams (given_of given.now) line number operands.types rule at_line)) }
{
    let function = header_at(given.functions, number as usize);
    let Parts { exprs, types } = operands;
    if types.as_slice() != function.params.as_slice() {
        return Err(TypeFault::Rule { rule: 12, line });
    }
    Ok(TypedExpr {
        line,
        types: Seq::from_slice(given.alloc, function.results.as_slice())?,
        kind: TypedKind::Call(number, exprs),
    })
}

/// The call of a name that is built in.
fn built_in(name: u32, given: &Given<'_>) -> Option<BuiltIn>
    ensures some { IfSome result (λ b. IsBuiltIn (given_of given.now) name b) }
    ensures none { IfNone result (IsNoBuiltIn (given_of given.now) name) }
{
    match item_at(given.spellings, name as usize) {
        Some(spelling) => built_in_named(spelling.as_slice()),
        None => None,
    }
}
