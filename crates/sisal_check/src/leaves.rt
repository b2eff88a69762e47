//! Expressions without parts: constants and names.
ghost use Rattle.breaking_laws.specs.Broken.{Broken};
ghost use Rattle.breaking_laws.specs.Refusals.{Never};
ghost use Rattle.sisal_check.specs.Walked.{given_of};
ghost use Rattle.std.specs.Prelude.{IfErr, IfOk, [], length, ◌∷◌, ◌≡◌, ◌≤◌};
ghost use Rattle.type_rules.specs.Faults.{IsRule};
ghost use Rattle.typed_tree.specs.Typing.{at, with};
ghost use Rattle.typing_laws.specs.Forming.{constant_number};
ghost use Rattle.typing_laws.specs.Judged.{Typed};
ghost use Rattle.sisal_tree.specs.declared.expr.ExprKind.TheVariants as tree;

use crate::state::{Given, Walk};
use flow_value::{NoMemory, Seq};
use sisal_tree::Constant;
use std::alloc::Global;
use type_rules::TypeFault;
use type_table::{BOOLEAN, CHARACTER, INTEGER, NULL, TEXT, TypeNumbers};
use typed_tree::{TypedExpr, TypedKind};
use value_names::Value;

/// The list of one number.
pub(crate) fn single(alloc: Global, number: usize) -> Result<TypeNumbers, NoMemory>
    ensures { IfOk result (λ numbers. numbers ≡ number ∷ []) }
{
    let mut numbers = Seq::new(alloc);
    numbers.add(number)?;
    Ok(numbers)
}

/// A constant.
#[inline(never)]
pub(crate) fn constant(line: u32, c: &Constant, given: &Given<'_>) -> Result<TypedExpr, TypeFault>
    ensures is { IfOk result (λ t. t ≡ with line (constant_number c.now ∷ []) (TypedKind.Constant c.now)) }
    ensures breaks { IfErr result (IsRule (λ rule at_line. Never rule at_line)) }
{
    let types = single(given.alloc, constant_type(c))?;
    let c = copied(given.alloc, c)?;
    Ok(TypedExpr {
        line,
        types,
        kind: TypedKind::Constant(c),
    })
}

/// A name: rule 9 where it is not in force.
#[inline(never)]
pub(crate) fn value(
    line: u32,
    name: u32,
    given: &Given<'_>,
    walk: &Walk,
) -> Result<TypedExpr, TypeFault>
    ensures typed { IfOk result (λ t. Typed (given_of given.now) walk.now.types walk.now.names (at line (tree.Name name)) t) }
    ensures line { IfOk result (λ t. t.line ≡ line) }
    ensures breaks { IfErr result (IsRule (λ rule at_line. Broken (given_of given.now) walk.now.types walk.now.names (at line (tree.Name name)) rule at_line)) }
    ensures some { IfOk result (λ t. 1 ≤ length t.types) }
{
    match walk.names.find(name) {
        Some(found) => level(line, found, given),
        None => {
            walk.types.holds();
            Err(TypeFault::Rule { rule: 9, line })
        }
    }
}

/// `old` and a name: rule 10 where it is no loop name in a turn.
#[inline(never)]
pub(crate) fn old_value(
    line: u32,
    name: u32,
    given: &Given<'_>,
    walk: &Walk,
) -> Result<TypedExpr, TypeFault>
    ensures typed { IfOk result (λ t. Typed (given_of given.now) walk.now.types walk.now.names (at line (tree.Old name)) t) }
    ensures line { IfOk result (λ t. t.line ≡ line) }
    ensures breaks { IfErr result (IsRule (λ rule at_line. Broken (given_of given.now) walk.now.types walk.now.names (at line (tree.Old name)) rule at_line)) }
    ensures some { IfOk result (λ t. 1 ≤ length t.types) }
{
    match walk.names.find_old(name) {
        Some(found) => level(line, found, given),
        None => {
            walk.types.holds();
            Err(TypeFault::Rule { rule: 10, line })
        }
    }
}

fn level(line: u32, found: Value, given: &Given<'_>) -> Result<TypedExpr, TypeFault>
    ensures is { IfOk result (λ t. t ≡ with line (found.ty ∷ []) (TypedKind.Value found.level)) }
    ensures breaks { IfErr result (IsRule (λ rule at_line. Never rule at_line)) }
{
    Ok(TypedExpr {
        line,
        types: single(given.alloc, found.ty)?,
        kind: TypedKind::Value(found.level),
    })
}

fn constant_type(c: &Constant) -> usize
    ensures { result ≡ constant_number c.now }
{
    match c {
        Constant::Integer(_) => INTEGER,
        Constant::Letter(_) => CHARACTER,
        Constant::Quoted(_) => TEXT,
        Constant::True | Constant::False => BOOLEAN,
        Constant::Nil => NULL,
    }
}

fn copied(alloc: Global, c: &Constant) -> Result<Constant, NoMemory>
    ensures { IfOk result (λ copy. copy ≡ c.now) }
{
    match c {
        Constant::Integer(n) => Ok(Constant::Integer(*n)),
        Constant::Letter(code) => Ok(Constant::Letter(*code)),
        Constant::Quoted(text) => Ok(Constant::Quoted(Seq::from_slice(alloc, text.as_slice())?)),
        Constant::True => Ok(Constant::True),
        Constant::False => Ok(Constant::False),
        Constant::Nil => Ok(Constant::Nil),
    }
}
