//! Expressions between words: what each production makes of the values of its symbols.

ghost use Rattle.std.specs.Prelude.{◌≡◌, OnOk, Some};
ghost use Rattle.pushdown.specs.Meaning.{perform};
ghost use Rattle.sisal_grammar.specs.Acts.{sisal};
ghost use Rattle.sisal_grammar.specs.Sorts.{args};
ghost use Rattle.parse_stack.specs.Stack.{Tops};
ghost use Rattle.sisal_expr_acts.specs.Actions.{compound_action};

use crate::folds::content;
use flow_value::{Held, NoMemory};
use parse_stack::{Values, name_in};
use sisal_grammar::{Action, Back, Value};
use sisal_tree::{Elements, Expr, ExprKind};
use std::alloc::Global;

/// The actions of expressions between words.
#[derive(Clone, Copy)]
pub enum CompoundAct {
    /// `other = "array" named "[" elements "]"`
    Array,
    /// `other = "stream" named "[" args "]"`
    Stream,
    /// `other = "record" named "[" fv fvs "]"`
    Record,
    /// `other = "union" @name "[" @name content "]"`
    Union,
    /// `other = "let" defs "in" exprs "end" "let"`
    Let,
    /// `other = "if" expr "then" exprs elses "end" "if"`
    If,
    /// `other = "for" loop "end" "for"`
    For,
    /// `is_what = "error"`
    WordName,
    /// `is_what = @name` and the like
    AName,
    /// `named =` and the like
    NoName,
    /// `elements =`
    NoElements,
    /// `elements = expr ":" exprs`
    SomeElements,
    /// `elses = "elseif" expr "then" exprs elses`
    ElseIf,
    /// `elses = "else" exprs`
    Else,
}

/// Takes the values of a production's symbols, and puts what the production makes of them.
pub fn perform_compound(stack: &mut Values, alloc: Global, act: CompoundAct) -> Result<(), NoMemory>
    requires { Tops (args (compound_action act)) stack.old }
    ensures { OnOk result (Some stack.new ≡ perform sisal (compound_action act) stack.old) }
{
    match act {
        CompoundAct::Array => array_of(stack),
        CompoundAct::Stream => stream_of(stack),
        CompoundAct::Record => record_of(stack),
        CompoundAct::Union => union_of(stack, alloc),
        CompoundAct::Let => let_in(stack),
        CompoundAct::If => if_then(stack, alloc),
        CompoundAct::For => for_loop(stack),
        CompoundAct::WordName => word_name(stack),
        CompoundAct::AName => a_name(stack),
        CompoundAct::NoName => no_name(stack),
        CompoundAct::NoElements => no_elements(stack),
        CompoundAct::SomeElements => some_elements(stack, alloc),
        CompoundAct::ElseIf => else_if(stack, alloc),
        CompoundAct::Else => else_part(stack),
    }
}

/// `other = "array" named "[" elements "]"`
fn array_of(stack: &mut Values) -> Result<(), NoMemory>
    requires { Tops (args Action.Array) stack.old }
    ensures { OnOk result (Some stack.new ≡ perform sisal Action.Array stack.old) }
{
    let word = stack.take_token();
    let name = stack.take_maybe_name();
    let _open = stack.take_token();
    let elements = stack.take_maybe_elements();
    let _close = stack.take_token();
    let kind = ExprKind::Array(name, elements);
    stack.push(Value::AnExpr(Expr {
        line: word.line,
        kind,
    }))
}

/// `other = "stream" named "[" args "]"`
fn stream_of(stack: &mut Values) -> Result<(), NoMemory>
    requires { Tops (args Action.Stream) stack.old }
    ensures { OnOk result (Some stack.new ≡ perform sisal Action.Stream stack.old) }
{
    let word = stack.take_token();
    let name = stack.take_maybe_name();
    let _open = stack.take_token();
    let values = stack.take_exprs();
    let _close = stack.take_token();
    let kind = ExprKind::Stream(name, values.into_seq());
    stack.push(Value::AnExpr(Expr {
        line: word.line,
        kind,
    }))
}

/// `other = "record" named "[" fv fvs "]"`
fn record_of(stack: &mut Values) -> Result<(), NoMemory>
    requires { Tops (args Action.Record) stack.old }
    ensures { OnOk result (Some stack.new ≡ perform sisal Action.Record stack.old) }
{
    let word = stack.take_token();
    let name = stack.take_maybe_name();
    let _open = stack.take_token();
    let first = stack.take_field_value();
    let mut rest = stack.take_field_values();
    let _close = stack.take_token();
    rest.push(first)?;
    let kind = ExprKind::Record(name, rest.into_seq());
    stack.push(Value::AnExpr(Expr {
        line: word.line,
        kind,
    }))
}

/// `other = "union" @name "[" @name content "]"`
fn union_of(stack: &mut Values, alloc: Global) -> Result<(), NoMemory>
    requires { Tops (args Action.Union) stack.old }
    ensures { OnOk result (Some stack.new ≡ perform sisal Action.Union stack.old) }
{
    let word = stack.take_token();
    let name = stack.take_token();
    let _open = stack.take_token();
    let tag = stack.take_token();
    let written = stack.take_maybe_expr();
    let _close = stack.take_token();
    let value = Held::new(alloc, content(&tag, written))?;
    let kind = ExprKind::Union(name_in(&name), name_in(&tag), value);
    stack.push(Value::AnExpr(Expr {
        line: word.line,
        kind,
    }))
}

/// `other = "let" defs "in" exprs "end" "let"`
fn let_in(stack: &mut Values) -> Result<(), NoMemory>
    requires { Tops (args Action.Let) stack.old }
    ensures { OnOk result (Some stack.new ≡ perform sisal Action.Let stack.old) }
{
    let word = stack.take_token();
    let defs = stack.take_defs();
    let _in = stack.take_token();
    let values = stack.take_exprs();
    let _end = stack.take_token();
    let _let = stack.take_token();
    let kind = ExprKind::Let(defs.into_seq(), values.into_seq());
    stack.push(Value::AnExpr(Expr {
        line: word.line,
        kind,
    }))
}

/// `other = "if" expr "then" exprs elses "end" "if"`
fn if_then(stack: &mut Values, alloc: Global) -> Result<(), NoMemory>
    requires { Tops (args Action.If) stack.old }
    ensures { OnOk result (Some stack.new ≡ perform sisal Action.If stack.old) }
{
    let word = stack.take_token();
    let test = stack.take_expr();
    let _then = stack.take_token();
    let yes = stack.take_exprs();
    let no = stack.take_exprs();
    let _end = stack.take_token();
    let _if = stack.take_token();
    let test = Held::new(alloc, test)?;
    let kind = ExprKind::If(test, yes.into_seq(), no.into_seq());
    stack.push(Value::AnExpr(Expr {
        line: word.line,
        kind,
    }))
}

/// `other = "for" loop "end" "for"`
fn for_loop(stack: &mut Values) -> Result<(), NoMemory>
    requires { Tops (args Action.For) stack.old }
    ensures { OnOk result (Some stack.new ≡ perform sisal Action.For stack.old) }
{
    let word = stack.take_token();
    let whole = stack.take_loop();
    let _end = stack.take_token();
    let _for = stack.take_token();
    let kind = ExprKind::For(whole);
    stack.push(Value::AnExpr(Expr {
        line: word.line,
        kind,
    }))
}

/// `is_what = "error"`
fn word_name(stack: &mut Values) -> Result<(), NoMemory>
    requires { Tops (args Action.WordName) stack.old }
    ensures { OnOk result (Some stack.new ≡ perform sisal Action.WordName stack.old) }
{
    let _error = stack.take_token();
    stack.push(Value::MaybeName(None))
}

/// `is_what = @name`
fn a_name(stack: &mut Values) -> Result<(), NoMemory>
    requires { Tops (args Action.AName) stack.old }
    ensures { OnOk result (Some stack.new ≡ perform sisal Action.AName stack.old) }
{
    let name = stack.take_token();
    stack.push(Value::MaybeName(Some(name_in(&name))))
}

/// `named =`
fn no_name(stack: &mut Values) -> Result<(), NoMemory>
    requires { Tops (args Action.NoName) stack.old }
    ensures { OnOk result (Some stack.new ≡ perform sisal Action.NoName stack.old) }
{
    stack.push(Value::MaybeName(None))
}

/// `elements =`
fn no_elements(stack: &mut Values) -> Result<(), NoMemory>
    requires { Tops (args Action.NoElements) stack.old }
    ensures { OnOk result (Some stack.new ≡ perform sisal Action.NoElements stack.old) }
{
    stack.push(Value::MaybeElements(None))
}

/// `elements = expr ":" exprs`
fn some_elements(stack: &mut Values, alloc: Global) -> Result<(), NoMemory>
    requires { Tops (args Action.SomeElements) stack.old }
    ensures { OnOk result (Some stack.new ≡ perform sisal Action.SomeElements stack.old) }
{
    let lower = stack.take_expr();
    let _colon = stack.take_token();
    let values = stack.take_exprs();
    let lower = Held::new(alloc, lower)?;
    let values = values.into_seq();
    stack.push(Value::MaybeElements(Some(Elements { lower, values })))
}

/// `elses = "elseif" expr "then" exprs elses`
fn else_if(stack: &mut Values, alloc: Global) -> Result<(), NoMemory>
    requires { Tops (args Action.ElseIf) stack.old }
    ensures { OnOk result (Some stack.new ≡ perform sisal Action.ElseIf stack.old) }
{
    let word = stack.take_token();
    let test = stack.take_expr();
    let _then = stack.take_token();
    let yes = stack.take_exprs();
    let no = stack.take_exprs();
    let test = Held::new(alloc, test)?;
    let kind = ExprKind::If(test, yes.into_seq(), no.into_seq());
    let mut results = Back::new(alloc);
    results.push(Expr {
        line: word.line,
        kind,
    })?;
    stack.push(Value::Exprs(results))
}

/// `elses = "else" exprs`
fn else_part(stack: &mut Values) -> Result<(), NoMemory>
    requires { Tops (args Action.Else) stack.old }
    ensures { OnOk result (Some stack.new ≡ perform sisal Action.Else stack.old) }
{
    let _else = stack.take_token();
    let results = stack.take_exprs();
    stack.push(Value::Exprs(results))
}
