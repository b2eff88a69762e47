//! Expressions.
ghost use Rattle.breaking_laws.specs.Broken.{Broken, BrokenForm};
ghost use Rattle.breaking_laws.specs.Refusals.{HasElements};
ghost use Rattle.sisal_check.specs.Walked.{IsPlain, given_of, parts_of};
ghost use Rattle.sisal_tree.specs.declared.expr.ExprKind.TheVariants as tree;
ghost use Rattle.sisal_tree.specs.declared.expr.ExprKind.TheViews.{out-ExprKind};
ghost use Rattle.std.specs.Prelude.{IfErr, IfOk, OnOk, Option, Some, length, ℕ, ◌<◌, ◌≡◌, ◌≤◌};
ghost use Rattle.type_rules.specs.Faults.{IsRule};
ghost use Rattle.type_rules.specs.Heads.{IsForm};
ghost use Rattle.typed_tree.specs.Typing.{at};
ghost use Rattle.typing_laws.specs.Forming.{Operands};
ghost use Rattle.typing_laws.specs.Judged.{Adds, IsUsedIn, Typed};
ghost use Rattle.text_trees.specs.Spelled.{AreElements, IsSpelled};
ghost use Rattle.text_trees.specs.Parts.{HasParts};

use crate::calls::call;
use crate::cases::tag_case;
use crate::defs::defs;
use crate::heads::head_of;
use crate::leaves::{constant, old_value, value};
use crate::lists::{all, fields, many, one, only};
use crate::loops::looped;
use crate::making::{finish, group, if_else, let_in};
use crate::state::{Given, Parts, Walk};
use sisal_tree::{Elements, Expr, ExprKind};
use type_rules::TypeFault;
use typed_tree::TypedExpr;

/// The typed tree of an expression: SISAL Language Reference Manual 1.2, expressions.
#[cycle(walk)]
pub(crate) fn typed(e: &Expr, given: &Given<'_>, walk: &mut Walk) -> Result<TypedExpr, TypeFault>
    requires spelled { IsSpelled given.now.tokens.now (length given.now.spellings.now) walk.old.names.height e.now }
    ensures used { OnOk result (IsUsedIn (given_of given.now) walk.old.types walk.new.types) }
    ensures names { OnOk result (walk.new.names ≡ walk.old.names) }
    ensures typed { IfOk result (λ t. Typed (given_of given.now) walk.new.types walk.old.names e.now t) }
    ensures line { IfOk result (λ t. t.line ≡ e.now.line) }
    ensures breaks { IfErr result (IsRule (λ rule at_line. Broken (given_of given.now) walk.old.types walk.old.names e.now rule at_line)) }
    ensures some { IfOk result (λ t. 1 ≤ length t.types) }
{
    let Expr { line, kind } = e;
    match kind {
        ExprKind::TagCase(cases) => tag_case(cases, *line, given, walk),
        ExprKind::For(l) => looped(*line, l, given, walk),
        _ => plain(e, given, walk),
    }
}

/// An expression that is neither a `tagcase` nor a loop: these need the stack for more.
#[inline(never)]
#[cycle(walk)]
fn plain(e: &Expr, given: &Given<'_>, walk: &mut Walk) -> Result<TypedExpr, TypeFault>
    requires spelled { HasParts given.now.tokens.now (length given.now.spellings.now) walk.old.names.height (out-ExprKind e.now.kind) }
    requires plain { IsPlain (out-ExprKind e.now.kind) }
    ensures used { OnOk result (IsUsedIn (given_of given.now) walk.old.types walk.new.types) }
    ensures names { OnOk result (walk.new.names ≡ walk.old.names) }
    ensures typed { IfOk result (λ t. Typed (given_of given.now) walk.new.types walk.old.names e.now t) }
    ensures line { IfOk result (λ t. t.line ≡ e.now.line) }
    ensures breaks { IfErr result (IsRule (λ rule at_line. Broken (given_of given.now) walk.old.types walk.old.names e.now rule at_line)) }
    ensures some { IfOk result (λ t. 1 ≤ length t.types) }
{
    let Expr { line, kind } = e;
    match kind {
        ExprKind::Constant(c) => constant(*line, c, given),
        ExprKind::Name(x) => value(*line, *x, given, walk),
        ExprKind::Old(x) => old_value(*line, *x, given, walk),
        ExprKind::Group(inner) => {
            let inner = typed(inner.get(), given, walk)?;
            group(*line, inner, given)
        }
        ExprKind::Call(x, es) => {
            let operands = all(es.as_slice(), given, walk)?;
            walk.types.holds();
            call(*line, *x, operands, given, walk)
        }
        ExprKind::Let(ds, es) => {
            let outer = walk.names.mark();
            let defined = defs(ds.as_slice(), None, given, walk)?;
            let results = all(es.as_slice(), given, walk)?;
            walk.names.leave(outer);
            Ok(let_in(*line, defined, results))
        }
        ExprKind::If(test, then, otherwise) => {
            let test = only(test.get(), given, walk)?;
            let then = all(then.as_slice(), given, walk)?;
            let otherwise = all(otherwise.as_slice(), given, walk)?;
            walk.types.holds();
            if_else(*line, test, then, otherwise)
        }
        ExprKind::TagCase(_) | ExprKind::For(_) => unreachable!(),
        _ => applied(kind, *line, given, walk),
    }
}

/// A form over operands that have one value each.
#[inline(never)]
#[cycle(walk)]
fn applied(
    kind: &ExprKind,
    line: u32,
    given: &Given<'_>,
    walk: &mut Walk,
) -> Result<TypedExpr, TypeFault>
    requires spelled { HasParts given.now.tokens.now (length given.now.spellings.now) walk.old.names.height (out-ExprKind kind.now) }
    requires form { IsForm (out-ExprKind kind.now) }
    ensures used { OnOk result (IsUsedIn (given_of given.now) walk.old.types walk.new.types) }
    ensures names { OnOk result (walk.new.names ≡ walk.old.names) }
    ensures typed { IfOk result (λ t. Typed (given_of given.now) walk.new.types walk.old.names (at line kind.now) t) }
    ensures line { IfOk result (λ t. t.line ≡ line) }
    ensures breaks { IfErr result (IsRule (λ rule at_line. Broken (given_of given.now) walk.old.types walk.old.names (at line kind.now) rule at_line)) }
    ensures some { IfOk result (λ t. 1 ≤ length t.types) }
{
    let head = head_of(kind, line, given, walk)?;
    let mut parts = Parts::new(given.alloc);
    operands(kind, &mut parts, given, walk)?;
    walk.types.holds();
    finish(line, head, parts, given, walk)
}

/// Types the operands of a form in order.
#[cycle(walk)]
fn operands(
    kind: &ExprKind,
    parts: &mut Parts,
    given: &Given<'_>,
    walk: &mut Walk,
) -> Result<(), TypeFault>
    requires spelled { HasParts given.now.tokens.now (length given.now.spellings.now) walk.old.names.height (out-ExprKind kind.now) }
    requires form { IsForm (out-ExprKind kind.now) }
    ensures used { OnOk result (IsUsedIn (given_of given.now) walk.old.types walk.new.types) }
    ensures names { OnOk result (walk.new.names ≡ walk.old.names) }
    ensures adds { OnOk result (Adds (parts_of parts.old) (parts_of parts.new) (Operands (given_of given.now) walk.new.types walk.old.names kind.now)) }
    ensures elements { OnOk result (HasElements (out-ExprKind kind.now) parts.new.types) }
    ensures breaks { IfErr result (IsRule (λ rule at_line. BrokenForm (given_of given.now) walk.old.types walk.old.names kind.now rule at_line)) }
{
    match kind {
        ExprKind::Convert(_, e) => one(e.get(), parts, given, walk),
        ExprKind::IsError(e) => one(e.get(), parts, given, walk),
        ExprKind::IsTag(_, e) => one(e.get(), parts, given, walk),
        ExprKind::Prefix(_, e) => one(e.get(), parts, given, walk),
        ExprKind::Field(e, _) => one(e.get(), parts, given, walk),
        ExprKind::Union(_, _, e) => one(e.get(), parts, given, walk),
        ExprKind::Binary(_, e, f) => {
            one(e.get(), parts, given, walk)?;
            one(f.get(), parts, given, walk)
        }
        ExprKind::Select(e, f) => {
            one(e.get(), parts, given, walk)?;
            one(f.get(), parts, given, walk)
        }
        ExprKind::Update(e, i, f) => {
            one(e.get(), parts, given, walk)?;
            one(i.get(), parts, given, walk)?;
            one(f.get(), parts, given, walk)
        }
        ExprKind::Replace(e, vs) => {
            one(e.get(), parts, given, walk)?;
            fields(vs.as_slice(), parts, given, walk)
        }
        ExprKind::Array(_, elements) => match elements {
            Some(elements) => elements_of(elements, parts, given, walk),
            None => Ok(()),
        },
        ExprKind::Stream(_, es) => many(es.as_slice(), parts, given, walk),
        ExprKind::Record(_, vs) => fields(vs.as_slice(), parts, given, walk),
        ExprKind::ErrorOf(_) => Ok(()),
        _ => unreachable!(),
    }
}

/// Types the lower bound of an array and its elements in order.
#[cycle(walk)]
fn elements_of(
    elements: &Elements,
    parts: &mut Parts,
    given: &Given<'_>,
    walk: &mut Walk,
) -> Result<(), TypeFault>
    requires spelled { AreElements given.now.tokens.now (length given.now.spellings.now) walk.old.names.height elements.now }
    ensures used { OnOk result (IsUsedIn (given_of given.now) walk.old.types walk.new.types) }
    ensures names { OnOk result (walk.new.names ≡ walk.old.names) }
    ensures adds { OnOk result ((x : Option ℕ) → Adds (parts_of parts.old) (parts_of parts.new) (Operands (given_of given.now) walk.new.types walk.old.names (tree.Array x (Some elements.now)))) }
    ensures elements { OnOk result (1 < length parts.new.types) }
    ensures breaks { IfErr result (IsRule (λ rule at_line. (x : Option ℕ) → BrokenForm (given_of given.now) walk.old.types walk.old.names (tree.Array x (Some elements.now)) rule at_line)) }
{
    one(elements.lower.get(), parts, given, walk)?;
    many(elements.values.as_slice(), parts, given, walk)
}
