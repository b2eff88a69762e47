//! The walk over a typed tree. Each phrase is met once.
ghost use Rattle.std.specs.Prelude.{◌≡◌, ℕ, ◌+◌, List, length, map};
ghost use Rattle.lowering.specs.Loops.{loop_name, unless_places};
ghost use Rattle.lowered_sizes.specs.Counting.{joined, parts};
ghost use Rattle.lowered_sizes.specs.Forms.{
  all_sized,
  arms_sized,
  clauses_sized,
  defs_sized,
  extras_sized,
  kind_sizes,
  phrase_sized,
  sizes,
};
ghost use Rattle.tree_sizes.specs.Capped.{Keeps, KeepsSizes};
ghost use Rattle.tree_sizes.specs.Phrases.{phrases, lists, IsProduct, IsInitial};

use crate::leaves::{applied, constant, within};
use crate::loops::{inputs, is_limited};
use crate::names::{extra, is_loop_name};
use crate::places::{Place, is_not, is_unless, next};
use crate::sums::{beside, choice, deeper, joined, negated, node, only, part};
use crate::turns::{initial, product};
use flow_value::Seq;
use lowered_sizes::Sizes;
use type_table::Types;
use typed_tree::{Case, ClauseForm, TypedExpr, TypedKind};

/// How much an expression becomes, where so many names are in force.
#[cycle(sizes)]
fn expr(types: &Types, names: u128, e: &TypedExpr) -> Sizes
    ensures { (n : ℕ) → Keeps names n → KeepsSizes result (sizes types.now e.now n) }
{
    kind(types, names, e.types.len() as u128, &e.kind)
}

/// How much a kind of expression with so many types becomes.
#[cycle(sizes)]
fn kind(types: &Types, names: u128, values: u128, kind: &TypedKind) -> Sizes
    ensures { (n : ℕ) (ts : List ℕ) → Keeps names n → Keeps values (length ts) → KeepsSizes result ((kind_sizes types.now kind.now).sizes ts n) }
{
    match kind {
        TypedKind::Constant(c) => constant(c, values),
        TypedKind::Value(_) => only(1),
        TypedKind::Group(parts) => exprs(types, names, parts.as_slice()),
        TypedKind::Call(_, parts) => {
            let all = exprs(types, names, parts.as_slice());
            joined(all, node(all.values, values))
        }
        TypedKind::Apply(op, parts) => {
            let all = exprs(types, names, parts.as_slice());
            joined(all, applied(op, all.values, values))
        }
        TypedKind::Let(parts, body) => {
            let first = defs(types, names, parts.as_slice());
            follow(types, names, first, body.as_slice())
        }
        TypedKind::If(test, yes, no) => {
            let tested = exprs(types, names, test.as_slice());
            let arm = exprs(types, names, yes.as_slice());
            let other = exprs(types, names, no.as_slice());
            choice(tested, arm, other, values)
        }
        TypedKind::Case(case, subject, bodies) => {
            let union = exprs(types, names, subject.as_slice());
            let inside = arms(types, names, case, bodies.as_slice());
            joined(union, joined(inside, node(values, values)))
        }
        TypedKind::Product(_, _, _, _) => generators_loop(types, names, values, kind),
        TypedKind::Initial(_, _, _, _, _) => turns_loop(types, names, values, kind),
    }
}

/// How much a loop over generators with so many types becomes.
#[cycle(sizes)]
fn generators_loop(types: &Types, names: u128, values: u128, kind: &TypedKind) -> Sizes
    requires { IsProduct kind.now }
    ensures { (n : ℕ) (ts : List ℕ) → Keeps names n → Keeps values (length ts) → KeepsSizes result ((kind_sizes types.now kind.now).sizes ts n) }
{
    let TypedKind::Product(form, bounds, definitions, results) = kind else {
        unreachable!()
    };
    let ends = exprs(types, names, bounds.as_slice());
    let inner = inputs(form);
    let inside = deeper(names, inner.values);
    let first = defs(types, inside, definitions.as_slice());
    let forms = form.clauses.as_slice();
    let body = collect(types, inside, first, forms, results.as_slice());
    let is_limit = is_limited(types, form.sources.as_slice(), bounds.as_slice());
    joined(ends, product(is_limit, forms, inner, body, values))
}

/// How much a loop of turns with so many types becomes.
#[cycle(sizes)]
fn turns_loop(types: &Types, names: u128, values: u128, kind: &TypedKind) -> Sizes
    requires { IsInitial kind.now }
    ensures { (n : ℕ) (ts : List ℕ) → Keeps names n → Keeps values (length ts) → KeepsSizes result ((kind_sizes types.now kind.now).sizes ts n) }
{
    let TypedKind::Initial(turns, start, test, definitions, results) = kind else {
        unreachable!()
    };
    let first = defs(types, names, start.as_slice());
    let inside = deeper(names, first.values);
    let tested = exprs(types, inside, test.as_slice());
    let turn = defs(types, inside, definitions.as_slice());
    let forms = turns.clauses.as_slice();
    let parts = results.as_slice();
    let kept = row(types, names, first.values, forms, parts);
    initial(turns, first, kept, tested, turn, parts.len(), values)
}

/// How much some expressions become, one behind another.
#[cycle(sizes)]
pub fn exprs(types: &Types, names: u128, parts: &[TypedExpr]) -> Sizes
    ensures { (n : ℕ) → Keeps names n → KeepsSizes result (all_sized (phrases types.now parts.now) n) }
{
    let mut all = only(0);
    let mut at = parts.len();
    while at > 0 {
        at -= 1;
        all = beside(expr(types, names, &parts[at]), all);
    }
    all
}

/// How much definitions become, each of which sees the earlier ones.
#[cycle(sizes)]
fn defs(types: &Types, names: u128, definitions: &[Seq<TypedExpr>]) -> Sizes
    ensures { (n : ℕ) → Keeps names n → KeepsSizes result (defs_sized (lists types.now definitions.now) n) }
{
    let mut all = only(0);
    for list in definitions {
        let inside = names.saturating_add(all.values);
        all = beside(all, exprs(types, inside, list.as_slice()));
    }
    all
}

/// How much definitions that become so much, and the expressions that see them, become.
#[cycle(sizes)]
fn follow(types: &Types, names: u128, first: Sizes, parts: &[TypedExpr]) -> Sizes
    ensures { (n : ℕ) (a : Sizes) → Keeps names n → KeepsSizes first a → KeepsSizes result (joined a (all_sized (phrases types.now parts.now) (n + a.values))) }
{
    let inside = names.saturating_add(first.values);
    joined(first, exprs(types, inside, parts))
}

/// How much the arms of a `tagcase` become, as graphs inside of a node.
#[cycle(sizes)]
fn arms(types: &Types, names: u128, case: &Case, bodies: &[Seq<TypedExpr>]) -> Sizes
    ensures { (n : ℕ) → Keeps names n → KeepsSizes result (parts (arms_sized case.now 0 (lists types.now bodies.now) n)) }
{
    let mut all = only(0);
    let mut at = bodies.len();
    while at > 0 {
        at -= 1;
        let inside = within(case, at, names);
        all = joined(part(exprs(types, inside, bodies[at].as_slice())), all);
    }
    all
}

/// How much the values of clauses become, each mask of `unless` with its Not.
#[cycle(sizes)]
fn clauses(types: &Types, names: u128, forms: &[ClauseForm], parts: &[TypedExpr]) -> Sizes
    ensures { (n : ℕ) → Keeps names n → KeepsSizes result (all_sized (clauses_sized (unless_places forms.now) (phrases types.now parts.now)) n) }
{
    let mut place = Place {
        at: 0,
        is_mask: false,
    };
    let mut all = only(0);
    for e in parts {
        let one = expr(types, names, e);
        let is_not = is_not(forms, place);
        all = beside(all, negated(is_not, one));
        place = next(forms, place);
    }
    all
}

/// How much definitions that become so much, and the values of the clauses that see them, become.
#[cycle(sizes)]
fn collect(
    types: &Types,
    names: u128,
    first: Sizes,
    forms: &[ClauseForm],
    parts: &[TypedExpr],
) -> Sizes
    ensures { (n : ℕ) (a : Sizes) → Keeps names n → KeepsSizes first a → KeepsSizes result (joined a (all_sized (clauses_sized (unless_places forms.now) (phrases types.now parts.now)) (n + a.values))) }
{
    let inside = deeper(names, first.values);
    joined(first, clauses(types, inside, forms, parts))
}

/// How much what is collected besides so many loop names becomes, with so many names around.
#[cycle(sizes)]
fn row(types: &Types, around: u128, count: u128, forms: &[ClauseForm], parts: &[TypedExpr]) -> Sizes
    ensures { (n k : ℕ) → Keeps around n → Keeps count k → KeepsSizes result (all_sized (extras_sized (loop_name n k) (unless_places forms.now) (map (phrase_sized types.now) parts.now)) (n + k)) }
{
    let inside = deeper(around, count);
    let mut place = Place {
        at: 0,
        is_mask: false,
    };
    let mut all = only(0);
    for e in parts {
        let one = expr(types, inside, e);
        let is_name = is_loop_name(around, count, e);
        all = beside(all, extra(is_unless(forms, place), is_name, one));
        place = next(forms, place);
    }
    all
}
