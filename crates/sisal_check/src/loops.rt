//! Loops: SISAL Language Reference Manual 1.2, `for`.
ghost use Rattle.breaking_laws.specs.Broken.{Broken};
ghost use Rattle.breaking_laws.specs.Parts.{BrokenMade, MakesTypes};
ghost use Rattle.sisal_check.specs.Walked.{CrossesAll, IsInitial, IsLoopOver, IsProduct, defined_of, given_of, group_of, parts_of, turned_of};
ghost use Rattle.std.specs.Prelude.{IfErr, IfOk, OnOk, [], false, length, map, suc, true, ℕ, ◌∷◌, ◌≡◌, ◌≤◌};
ghost use Rattle.type_rules.specs.Faults.{IsRule};
ghost use Rattle.typed_tree.specs.Typing.{at};
ghost use Rattle.typing_laws.specs.Judged.{IsUsedIn, Typed};
ghost use Rattle.sisal_tree.specs.declared.expr.ExprKind.TheVariants as tree;
ghost use Rattle.text_trees.specs.Spelled.{IsLoop};

use crate::clauses::{clause_values, made_of};
use crate::defs::{Defined, defs};
use crate::generators::{Group, groups};
use crate::state::{Given, Parts, Walk};
use crate::turns::{Turned, turn_of};
use flow_value::Seq;
use sisal_tree::{Clause, Loop};
use type_rules::TypeFault;
use typed_tree::{Product, Turns, TypedExpr, TypedKind};

/// The typed tree of a loop, whose names are in force in it alone.
#[inline(never)]
#[cycle(walk)]
pub(crate) fn looped(
    line: u32,
    l: &Loop,
    given: &Given<'_>,
    walk: &mut Walk,
) -> Result<TypedExpr, TypeFault>
    requires spelled { IsLoop given.now.tokens.now (length given.now.spellings.now) walk.old.names.height l.now }
    ensures used { OnOk result (IsUsedIn (given_of given.now) walk.old.types walk.new.types) }
    ensures names { OnOk result (walk.new.names ≡ walk.old.names) }
    ensures typed { IfOk result (λ t. Typed (given_of given.now) walk.new.types walk.old.names (at line (tree.For l.now)) t) }
    ensures line { IfOk result (λ t. t.line ≡ line) }
    ensures breaks { IfErr result (IsRule (λ rule at_line. Broken (given_of given.now) walk.old.types walk.old.names (at line (tree.For l.now)) rule at_line)) }
    ensures some { IfOk result (λ t. 1 ≤ length t.types) }
{
    let outer = walk.names.mark();
    match l {
        Loop::Product(gs, ds, cs) => {
            let goes = groups(gs.as_slice(), given, walk)?;
            let defined = defs(ds.as_slice(), None, given, walk)?;
            let values = clause_values(cs.as_slice(), given, walk)?;
            walk.names.leave(outer);
            product(line, cs.as_slice(), goes, defined, values, given, walk)
        }
        Loop::Initial(ds, turn, cs) => {
            let first = walk.names.height();
            let started = defs(ds.as_slice(), None, given, walk)?;
            let turned = turn_of(turn, line, first, &started, given, walk)?;
            let values = clause_values(cs.as_slice(), given, walk)?;
            walk.names.leave(outer);
            initial(line, cs.as_slice(), started, turned, values, given, walk)
        }
    }
}

/// A loop over groups of generators: over the last one stand the definitions and the clauses, and
/// each one before it is a loop of its own over the results of the loop behind it.
#[inline(never)]
fn product(
    line: u32,
    cs: &[Clause],
    goes: Seq<Group>,
    defined: Defined,
    values: Parts,
    given: &Given<'_>,
    walk: &mut Walk,
) -> Result<TypedExpr, TypeFault>
    requires { 1 ≤ length goes }
    ensures used { OnOk result (IsUsedIn (given_of given.now) walk.old.types walk.new.types) }
    ensures names { OnOk result (walk.new.names ≡ walk.old.names) }
    ensures crossed { IfOk result (λ t. IsProduct (given_of given.now) walk.old.types walk.new.types line cs.now (map group_of goes) defined.exprs defined.types (parts_of values) t) }
    ensures line { IfOk result (λ t. t.line ≡ line) }
    ensures breaks { IfErr result (IsRule (λ rule at_line. BrokenMade (given_of given.now) walk.old.types (length goes) line cs.now values.types rule at_line)) }
    ensures some { IfOk result (λ t. 1 ≤ length cs.now → 1 ≤ length values.types → 1 ≤ length t.types) }
{
    let mut goes = goes;
    let Some(last) = goes.pop() else {
        unreachable!()
    };
    let inner = over(line, cs, last, defined, values, given, walk)?;
    crossed(line, cs, goes, inner, given, walk)
}

/// The loop over the last group of generators.
fn over(
    line: u32,
    cs: &[Clause],
    group: Group,
    defined: Defined,
    values: Parts,
    given: &Given<'_>,
    walk: &mut Walk,
) -> Result<TypedExpr, TypeFault>
    ensures used { OnOk result (IsUsedIn (given_of given.now) walk.old.types walk.new.types) }
    ensures names { OnOk result (walk.new.names ≡ walk.old.names) }
    ensures over { IfOk result (λ t. IsLoopOver walk.new.types line cs.now true values.types (group_of group) defined.exprs values.exprs t) }
    ensures breaks { IfErr result (IsRule (λ rule at_line. (groups : ℕ) → BrokenMade (given_of given.now) walk.old.types (suc groups) line cs.now values.types rule at_line)) }
    ensures makes { IfOk result (λ t. MakesTypes walk.new.types cs.now true values.types t.types) }
    ensures some { IfOk result (λ t. 1 ≤ length cs.now → 1 ≤ length values.types → 1 ≤ length t.types) }
{
    let made = made_of(line, cs, values.types.as_slice(), true, given, walk)?;
    let product = Product {
        sources: group.sources,
        clauses: made.forms,
    };
    Ok(TypedExpr {
        line,
        types: made.types,
        kind: TypedKind::Product(product, group.bounds, defined.exprs, values.exprs),
    })
}

/// The loops over the groups before the last one, from the inside out.
fn crossed(
    line: u32,
    cs: &[Clause],
    goes: Seq<Group>,
    inner: TypedExpr,
    given: &Given<'_>,
    walk: &mut Walk,
) -> Result<TypedExpr, TypeFault>
    ensures used { OnOk result (IsUsedIn (given_of given.now) walk.old.types walk.new.types) }
    ensures names { OnOk result (walk.new.names ≡ walk.old.names) }
    ensures crossed { IfOk result (λ t. CrossesAll (given_of given.now) walk.old.types walk.new.types line cs.now (map group_of goes) inner t) }
    ensures line { IfOk result (λ t. inner.line ≡ line → t.line ≡ line) }
    ensures breaks { IfErr result (IsRule (λ rule at_line. BrokenMade (given_of given.now) walk.old.types (length goes) line cs.now inner.types rule at_line)) }
    ensures some { IfOk result (λ t. 1 ≤ length cs.now → 1 ≤ length inner.types → 1 ≤ length t.types) }
{
    let mut goes = goes;
    let mut made = inner;
    while let Some(group) = goes.pop() {
        made = around(line, cs, group, made, given, walk)?;
    }
    Ok(made)
}

/// The loop over a group of generators whose values are those of the loop inside of it.
fn around(
    line: u32,
    cs: &[Clause],
    group: Group,
    inner: TypedExpr,
    given: &Given<'_>,
    walk: &mut Walk,
) -> Result<TypedExpr, TypeFault>
    ensures used { OnOk result (IsUsedIn (given_of given.now) walk.old.types walk.new.types) }
    ensures names { OnOk result (walk.new.names ≡ walk.old.names) }
    ensures over { IfOk result (λ t. IsLoopOver walk.new.types line cs.now false inner.types (group_of group) [] (inner ∷ []) t) }
    ensures breaks { IfErr result (IsRule (λ rule at_line. (groups : ℕ) → BrokenMade (given_of given.now) walk.old.types (suc groups) line cs.now inner.types rule at_line)) }
    ensures makes { IfOk result (λ t. MakesTypes walk.new.types cs.now false inner.types t.types) }
    ensures some { IfOk result (λ t. 1 ≤ length cs.now → 1 ≤ length inner.types → 1 ≤ length t.types) }
{
    let made = made_of(line, cs, inner.types.as_slice(), false, given, walk)?;
    let product = Product {
        sources: group.sources,
        clauses: made.forms,
    };
    let mut results = Seq::new(given.alloc);
    results.add(inner)?;
    Ok(TypedExpr {
        line,
        types: made.types,
        kind: TypedKind::Product(product, group.bounds, Seq::new(given.alloc), results),
    })
}

/// A `for initial`.
#[inline(never)]
fn initial(
    line: u32,
    cs: &[Clause],
    started: Defined,
    turned: Turned,
    values: Parts,
    given: &Given<'_>,
    walk: &mut Walk,
) -> Result<TypedExpr, TypeFault>
    ensures used { OnOk result (IsUsedIn (given_of given.now) walk.old.types walk.new.types) }
    ensures names { OnOk result (walk.new.names ≡ walk.old.names) }
    ensures is { IfOk result (λ t. IsInitial walk.new.types line cs.now (defined_of started) (turned_of turned) (parts_of values) t) }
    ensures breaks { IfErr result (IsRule (λ rule at_line. BrokenMade (given_of given.now) walk.old.types 1 line cs.now values.types rule at_line)) }
    ensures some { IfOk result (λ t. 1 ≤ length cs.now → 1 ≤ length values.types → 1 ≤ length t.types) }
{
    let made = made_of(line, cs, values.types.as_slice(), true, given, walk)?;
    let turns = Turns {
        is_first: turned.is_first,
        is_until: turned.is_until,
        renewed: turned.renewed,
        clauses: made.forms,
    };
    Ok(TypedExpr {
        line,
        types: made.types,
        kind: TypedKind::Initial(
            turns,
            started.exprs,
            turned.test,
            turned.exprs,
            values.exprs,
        ),
    })
}
