//! The results of a loop: what each production makes of the values of its symbols.

ghost use Rattle.std.specs.Prelude.{◌≡◌, OnOk, Some};
ghost use Rattle.pushdown.specs.Meaning.{perform};
ghost use Rattle.sisal_grammar.specs.Acts.{sisal};
ghost use Rattle.sisal_grammar.specs.Sorts.{args};
ghost use Rattle.parse_stack.specs.Stack.{Tops};
ghost use Rattle.sisal_unit_acts.specs.Actions.{clause_action};

use flow_value::NoMemory;
use parse_stack::{Values, direction_of, gathered_of, is_unless, reduction_of};
use sisal_grammar::{Action, Back, Value};
use sisal_tree::{Clause, ClauseKind, Direction, Mask};
use std::alloc::Global;

/// The actions of the results of loops.
#[derive(Clone, Copy)]
pub enum ClauseAct {
    /// `clauses =`
    NoClauses,
    /// `clauses = clause clauses`
    MoreClauses,
    /// `clause = "array" "of" expr mask` and the like
    Gathered,
    /// `clause = "value" "of" fold expr mask`
    Valued,
    /// `fold =`
    NoFold,
    /// `fold = red`
    PlainFold,
    /// `fold = "left" red` and the like
    Directed,
    /// `red = "sum"` and the like
    Reduced,
    /// `mask =`
    NoMask,
    /// `mask = "when" expr` and the like
    SomeMask,
}

/// Takes the values of a production's symbols, and puts what the production makes of them.
pub fn perform_clause(stack: &mut Values, alloc: Global, act: ClauseAct) -> Result<(), NoMemory>
    requires { Tops (args (clause_action act)) stack.old }
    ensures { OnOk result (Some stack.new ≡ perform sisal (clause_action act) stack.old) }
{
    match act {
        ClauseAct::NoClauses => no_clauses(stack, alloc),
        ClauseAct::MoreClauses => more_clauses(stack),
        ClauseAct::Gathered => gathered(stack),
        ClauseAct::Valued => valued(stack),
        ClauseAct::NoFold => no_fold(stack),
        ClauseAct::PlainFold => plain_fold(stack),
        ClauseAct::Directed => directed(stack),
        ClauseAct::Reduced => reduced(stack),
        ClauseAct::NoMask => no_mask(stack),
        ClauseAct::SomeMask => some_mask(stack),
    }
}

/// `clauses =`
fn no_clauses(stack: &mut Values, alloc: Global) -> Result<(), NoMemory>
    requires { Tops (args Action.NoClauses) stack.old }
    ensures { OnOk result (Some stack.new ≡ perform sisal Action.NoClauses stack.old) }
{
    stack.push(Value::Clauses(Back::new(alloc)))
}

/// `clauses = clause clauses`
fn more_clauses(stack: &mut Values) -> Result<(), NoMemory>
    requires { Tops (args Action.MoreClauses) stack.old }
    ensures { OnOk result (Some stack.new ≡ perform sisal Action.MoreClauses stack.old) }
{
    let first = stack.take_clause();
    let mut rest = stack.take_clauses();
    rest.push(first)?;
    stack.push(Value::Clauses(rest))
}

/// `clause = "array" "of" expr mask`
fn gathered(stack: &mut Values) -> Result<(), NoMemory>
    requires { Tops (args Action.Gathered) stack.old }
    ensures { OnOk result (Some stack.new ≡ perform sisal Action.Gathered stack.old) }
{
    let word = stack.take_token();
    let _of = stack.take_token();
    let value = stack.take_expr();
    let mask = stack.take_maybe_mask();
    let kind = gathered_of(&word.kind);
    stack.push(Value::AClause(Clause {
        line: word.line,
        kind,
        value,
        mask,
    }))
}

/// `clause = "value" "of" fold expr mask`
fn valued(stack: &mut Values) -> Result<(), NoMemory>
    requires { Tops (args Action.Valued) stack.old }
    ensures { OnOk result (Some stack.new ≡ perform sisal Action.Valued stack.old) }
{
    let word = stack.take_token();
    let _of = stack.take_token();
    let kind = stack.take_clause_kind();
    let value = stack.take_expr();
    let mask = stack.take_maybe_mask();
    stack.push(Value::AClause(Clause {
        line: word.line,
        kind,
        value,
        mask,
    }))
}

/// `fold =`
fn no_fold(stack: &mut Values) -> Result<(), NoMemory>
    requires { Tops (args Action.NoFold) stack.old }
    ensures { OnOk result (Some stack.new ≡ perform sisal Action.NoFold stack.old) }
{
    stack.push(Value::AKind(ClauseKind::Last))
}

/// `fold = red`
fn plain_fold(stack: &mut Values) -> Result<(), NoMemory>
    requires { Tops (args Action.PlainFold) stack.old }
    ensures { OnOk result (Some stack.new ≡ perform sisal Action.PlainFold stack.old) }
{
    let reduction = stack.take_reduction();
    stack.push(Value::AKind(ClauseKind::Reduce(Direction::Any, reduction)))
}

/// `fold = "left" red`
fn directed(stack: &mut Values) -> Result<(), NoMemory>
    requires { Tops (args Action.Directed) stack.old }
    ensures { OnOk result (Some stack.new ≡ perform sisal Action.Directed stack.old) }
{
    let word = stack.take_token();
    let reduction = stack.take_reduction();
    let direction = direction_of(&word.kind);
    stack.push(Value::AKind(ClauseKind::Reduce(direction, reduction)))
}

/// `red = "sum"`
fn reduced(stack: &mut Values) -> Result<(), NoMemory>
    requires { Tops (args Action.Reduced) stack.old }
    ensures { OnOk result (Some stack.new ≡ perform sisal Action.Reduced stack.old) }
{
    let word = stack.take_token();
    stack.push(Value::AReduction(reduction_of(&word.kind)))
}

/// `mask =`
fn no_mask(stack: &mut Values) -> Result<(), NoMemory>
    requires { Tops (args Action.NoMask) stack.old }
    ensures { OnOk result (Some stack.new ≡ perform sisal Action.NoMask stack.old) }
{
    stack.push(Value::MaybeMask(None))
}

/// `mask = "when" expr`
fn some_mask(stack: &mut Values) -> Result<(), NoMemory>
    requires { Tops (args Action.SomeMask) stack.old }
    ensures { OnOk result (Some stack.new ≡ perform sisal Action.SomeMask stack.old) }
{
    let word = stack.take_token();
    let test = stack.take_expr();
    let is_unless = is_unless(&word.kind);
    stack.push(Value::MaybeMask(Some(Mask { is_unless, test })))
}
