//! How an expression is begun.
ghost use Rattle.std.specs.Prelude.{◌≡◌, ◌+◌, ◌≤◌, OnOk};
ghost use Rattle.source_meaning.specs.Pending.{load};
ghost use Rattle.source_meaning.specs.Tasks.{Same, later, future, future_by, expr_task, kind_task, let_task, initial_task};

use crate::rows::no_rows;
use crate::slots::Given;
use crate::state::{After, Round, State, Turned, Walked, Work};
use crate::words::{constant_value, value_at};
use flow_value::{NoMemory, Seq};
use std::alloc::Global;
use typed_tree::{TypedExpr, TypedKind};

/// Begins an expression, whose step is counted.
pub fn begin<'a>(alloc: Global, state: &mut State<'a>, e: &'a TypedExpr) -> Result<(), NoMemory>
    ensures means { OnOk result (Same (later 1 (future state.new)) (future_by (expr_task e.now) state.old)) }
    ensures steps { state.new.steps ≡ state.old.steps }
    ensures load { OnOk result (load state.new.frames.items ≤ load state.old.frames.items + 5) }
{
    begin_kind(alloc, state, &e.kind, e.types.len())
}

/// Begins an expression of so many results.
fn begin_kind<'a>(
    alloc: Global,
    state: &mut State<'a>,
    kind: &'a TypedKind,
    results: usize,
) -> Result<(), NoMemory>
    ensures means { OnOk result (Same (future state.new) (future_by (kind_task kind.now results) state.old)) }
    ensures steps { state.new.steps ≡ state.old.steps }
    ensures load { OnOk result (load state.new.frames.items ≤ load state.old.frames.items + 5) }
{
    match kind {
        TypedKind::Constant(constant) => {
            let v = constant_value(alloc, constant)?;
            state.given = Given::One(v);
            Ok(())
        }
        TypedKind::Value(level) => {
            let v = value_at(alloc, state.names.as_slice(), *level as usize)?;
            state.given = Given::One(v);
            Ok(())
        }
        TypedKind::Group(parts) => state.list(alloc, After::Pass, parts.as_slice()),
        TypedKind::Call(number, parts) => {
            state.list(alloc, After::Enter(*number), parts.as_slice())
        }
        TypedKind::Apply(op, parts) => { state.operands(alloc, Work::Apply(op), parts.as_slice()) }
        TypedKind::Let(defs, values) => begin_let(alloc, state, defs, values),
        TypedKind::If(test, yes, no) => {
            state.list(alloc, After::Choose(yes, no, results), test.as_slice())
        }
        TypedKind::Case(case, subject, arms) => {
            state.list(alloc, After::Pick(case, arms, results), subject.as_slice())
        }
        TypedKind::Product(form, bounds, defs, values) => {
            let parts = Walked {
                form,
                defs,
                values,
                results,
            };
            state.operands(alloc, Work::Span(parts), bounds.as_slice())
        }
        TypedKind::Initial(form, first, test, defs, values) => {
            let parts = Turned {
                form,
                test,
                defs,
                values,
                results,
            };
            begin_loop(alloc, state, parts, first)
        }
    }
}

/// Begins definitions and the values behind them.
fn begin_let<'a>(
    alloc: Global,
    state: &mut State<'a>,
    defs: &'a Seq<Seq<TypedExpr>>,
    values: &'a Seq<TypedExpr>,
) -> Result<(), NoMemory>
    ensures means { OnOk result (Same (future state.new) (future_by (let_task defs.now values.now) state.old)) }
    ensures steps { state.new.steps ≡ state.old.steps }
    ensures load { OnOk result (load state.new.frames.items ≤ load state.old.frames.items + 5) }
{
    let mark = state.names.len();
    state.define(
        alloc,
        After::Unbind(mark),
        values.as_slice(),
        defs.as_slice(),
    )?;
    Ok(())
}

/// Begins a `for initial` with the definitions of its first part.
fn begin_loop<'a>(
    alloc: Global,
    state: &mut State<'a>,
    parts: Turned<'a>,
    first: &'a Seq<Seq<TypedExpr>>,
) -> Result<(), NoMemory>
    ensures means { OnOk result (Same (future state.new) (future_by (initial_task parts.entry first.now) state.old)) }
    ensures steps { state.new.steps ≡ state.old.steps }
    ensures load { OnOk result (load state.new.frames.items ≤ load state.old.frames.items + 5) }
{
    let mark = state.names.len();
    let clauses = no_rows(alloc, parts.form.clauses.as_slice())?;
    let round = Round {
        parts,
        mark,
        height: mark,
        is_tested: parts.form.is_first,
        clauses,
    };
    state.define(alloc, After::Start(round), &[], first.as_slice())?;
    Ok(())
}
