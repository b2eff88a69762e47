//! Lists of expressions, operators and operands: what each production makes of the values of its symbols.

ghost use Rattle.std.specs.Prelude.{◌≡◌, OnOk, Some};
ghost use Rattle.pushdown.specs.Meaning.{perform};
ghost use Rattle.sisal_grammar.specs.Acts.{sisal};
ghost use Rattle.sisal_grammar.specs.Sorts.{args};
ghost use Rattle.parse_stack.specs.Stack.{Tops};
ghost use Rattle.sisal_expr_acts.specs.Actions.{expr_action};

use crate::folds::{asked, called, chained};
use flow_value::{Held, NoMemory};
use parse_stack::{Values, binary_of, constant_of, name_in, prefix_of, scalar_of};
use sisal_grammar::{Action, Back, Value};
use sisal_tree::{Expr, ExprKind};
use std::alloc::Global;

/// The actions of lists of expressions, operators and operands.
#[derive(Clone, Copy)]
pub enum ExprAct {
    /// `exprs = expr exprs_more`
    Exprs,
    /// `exprs_more =` and the like
    NoExprs,
    /// `exprs_more = "," expr exprs_more`
    MoreExprs,
    /// `args = exprs`
    SameExprs,
    /// `expr = conj expr_more` and the like
    Chain,
    /// `expr_more =` and the like
    NoTail,
    /// `expr_more = "|" conj expr_more` and the like
    MoreTail,
    /// `inv = "~" inv` and the like
    Prefix,
    /// `inv = rel` and the like
    SameExpr,
    /// `rel_more = "=" cat` and the like
    OneTail,
    /// `prim = @name call`
    NameOrCall,
    /// `call =` and the like
    NoCall,
    /// `call = "(" args ")"`
    Call,
    /// `other = @number` and the like
    Literal,
    /// `other = "old" @name`
    Old,
    /// `other = "integer" "(" expr ")"` and the like
    Convert,
    /// `other = "(" expr ")"`
    Group,
    /// `other = "error" "[" type "]"`
    ErrorOf,
    /// `other = "is" is_what "(" expr ")"`
    Is,
    /// `content =` and the like
    NoExpr,
    /// `content = ":" expr` and the like
    SomeExpr,
}

/// Takes the values of a production's symbols, and puts what the production makes of them.
pub fn perform_expr(stack: &mut Values, alloc: Global, act: ExprAct) -> Result<(), NoMemory>
    requires { Tops (args (expr_action act)) stack.old }
    ensures { OnOk result (Some stack.new ≡ perform sisal (expr_action act) stack.old) }
{
    match act {
        ExprAct::Exprs => expressions(stack),
        ExprAct::NoExprs => no_exprs(stack, alloc),
        ExprAct::MoreExprs => more_exprs(stack),
        ExprAct::SameExprs => same_exprs(stack),
        ExprAct::Chain => chain(stack, alloc),
        ExprAct::NoTail => no_tail(stack, alloc),
        ExprAct::MoreTail => more_tail(stack),
        ExprAct::Prefix => prefix(stack, alloc),
        ExprAct::SameExpr => same_expr(stack),
        ExprAct::OneTail => one_tail(stack, alloc),
        ExprAct::NameOrCall => name_or_call(stack),
        ExprAct::NoCall => no_call(stack),
        ExprAct::Call => call(stack),
        ExprAct::Literal => literal(stack),
        ExprAct::Old => old_name(stack),
        ExprAct::Convert => convert(stack, alloc),
        ExprAct::Group => grouped(stack, alloc),
        ExprAct::ErrorOf => error_of(stack),
        ExprAct::Is => is_of(stack, alloc),
        ExprAct::NoExpr => no_expr(stack),
        ExprAct::SomeExpr => some_expr(stack),
    }
}

/// `exprs = expr exprs_more`
fn expressions(stack: &mut Values) -> Result<(), NoMemory>
    requires { Tops (args Action.Exprs) stack.old }
    ensures { OnOk result (Some stack.new ≡ perform sisal Action.Exprs stack.old) }
{
    let first = stack.take_expr();
    let mut rest = stack.take_exprs();
    rest.push(first)?;
    stack.push(Value::Exprs(rest))
}

/// `exprs_more =`
fn no_exprs(stack: &mut Values, alloc: Global) -> Result<(), NoMemory>
    requires { Tops (args Action.NoExprs) stack.old }
    ensures { OnOk result (Some stack.new ≡ perform sisal Action.NoExprs stack.old) }
{
    stack.push(Value::Exprs(Back::new(alloc)))
}

/// `exprs_more = "," expr exprs_more`
fn more_exprs(stack: &mut Values) -> Result<(), NoMemory>
    requires { Tops (args Action.MoreExprs) stack.old }
    ensures { OnOk result (Some stack.new ≡ perform sisal Action.MoreExprs stack.old) }
{
    let _comma = stack.take_token();
    let first = stack.take_expr();
    let mut rest = stack.take_exprs();
    rest.push(first)?;
    stack.push(Value::Exprs(rest))
}

/// `args = exprs`
fn same_exprs(stack: &mut Values) -> Result<(), NoMemory>
    requires { Tops (args Action.SameExprs) stack.old }
    ensures { OnOk result (Some stack.new ≡ perform sisal Action.SameExprs stack.old) }
{
    let exprs = stack.take_exprs();
    stack.push(Value::Exprs(exprs))
}

/// `expr = conj expr_more`
fn chain(stack: &mut Values, alloc: Global) -> Result<(), NoMemory>
    requires { Tops (args Action.Chain) stack.old }
    ensures { OnOk result (Some stack.new ≡ perform sisal Action.Chain stack.old) }
{
    let first = stack.take_expr();
    let tail = stack.take_tail();
    let whole = chained(alloc, first, tail)?;
    stack.push(Value::AnExpr(whole))
}

/// `expr_more =`
fn no_tail(stack: &mut Values, alloc: Global) -> Result<(), NoMemory>
    requires { Tops (args Action.NoTail) stack.old }
    ensures { OnOk result (Some stack.new ≡ perform sisal Action.NoTail stack.old) }
{
    stack.push(Value::Tail(Back::new(alloc)))
}

/// `expr_more = "|" conj expr_more`
fn more_tail(stack: &mut Values) -> Result<(), NoMemory>
    requires { Tops (args Action.MoreTail) stack.old }
    ensures { OnOk result (Some stack.new ≡ perform sisal Action.MoreTail stack.old) }
{
    let operator = stack.take_token();
    let right = stack.take_expr();
    let mut rest = stack.take_tail();
    rest.push((binary_of(&operator.kind), right))?;
    stack.push(Value::Tail(rest))
}

/// `inv = "~" inv`
fn prefix(stack: &mut Values, alloc: Global) -> Result<(), NoMemory>
    requires { Tops (args Action.Prefix) stack.old }
    ensures { OnOk result (Some stack.new ≡ perform sisal Action.Prefix stack.old) }
{
    let operator = stack.take_token();
    let operand = stack.take_expr();
    let operand = Held::new(alloc, operand)?;
    let kind = ExprKind::Prefix(prefix_of(&operator.kind), operand);
    stack.push(Value::AnExpr(Expr {
        line: operator.line,
        kind,
    }))
}

/// `inv = rel`
fn same_expr(stack: &mut Values) -> Result<(), NoMemory>
    requires { Tops (args Action.SameExpr) stack.old }
    ensures { OnOk result (Some stack.new ≡ perform sisal Action.SameExpr stack.old) }
{
    let expr = stack.take_expr();
    stack.push(Value::AnExpr(expr))
}

/// `rel_more = "=" cat`
fn one_tail(stack: &mut Values, alloc: Global) -> Result<(), NoMemory>
    requires { Tops (args Action.OneTail) stack.old }
    ensures { OnOk result (Some stack.new ≡ perform sisal Action.OneTail stack.old) }
{
    let operator = stack.take_token();
    let right = stack.take_expr();
    let mut tail = Back::new(alloc);
    tail.push((binary_of(&operator.kind), right))?;
    stack.push(Value::Tail(tail))
}

/// `prim = @name call`
fn name_or_call(stack: &mut Values) -> Result<(), NoMemory>
    requires { Tops (args Action.NameOrCall) stack.old }
    ensures { OnOk result (Some stack.new ≡ perform sisal Action.NameOrCall stack.old) }
{
    let name = stack.take_token();
    let call = stack.take_maybe_exprs();
    stack.push(Value::AnExpr(called(&name, call)))
}

/// `call =`
fn no_call(stack: &mut Values) -> Result<(), NoMemory>
    requires { Tops (args Action.NoCall) stack.old }
    ensures { OnOk result (Some stack.new ≡ perform sisal Action.NoCall stack.old) }
{
    stack.push(Value::MaybeExprs(None))
}

/// `call = "(" args ")"`
fn call(stack: &mut Values) -> Result<(), NoMemory>
    requires { Tops (args Action.Call) stack.old }
    ensures { OnOk result (Some stack.new ≡ perform sisal Action.Call stack.old) }
{
    let _open = stack.take_token();
    let arguments = stack.take_exprs();
    let _close = stack.take_token();
    stack.push(Value::MaybeExprs(Some(arguments)))
}

/// `other = @number`
fn literal(stack: &mut Values) -> Result<(), NoMemory>
    requires { Tops (args Action.Literal) stack.old }
    ensures { OnOk result (Some stack.new ≡ perform sisal Action.Literal stack.old) }
{
    let token = stack.take_token();
    let line = token.line;
    let kind = ExprKind::Constant(constant_of(token.kind));
    stack.push(Value::AnExpr(Expr { line, kind }))
}

/// `other = "old" @name`
fn old_name(stack: &mut Values) -> Result<(), NoMemory>
    requires { Tops (args Action.Old) stack.old }
    ensures { OnOk result (Some stack.new ≡ perform sisal Action.Old stack.old) }
{
    let word = stack.take_token();
    let name = stack.take_token();
    let kind = ExprKind::Old(name_in(&name));
    stack.push(Value::AnExpr(Expr {
        line: word.line,
        kind,
    }))
}

/// `other = "integer" "(" expr ")"`
fn convert(stack: &mut Values, alloc: Global) -> Result<(), NoMemory>
    requires { Tops (args Action.Convert) stack.old }
    ensures { OnOk result (Some stack.new ≡ perform sisal Action.Convert stack.old) }
{
    let word = stack.take_token();
    let _open = stack.take_token();
    let value = stack.take_expr();
    let _close = stack.take_token();
    let value = Held::new(alloc, value)?;
    let kind = ExprKind::Convert(scalar_of(&word.kind), value);
    stack.push(Value::AnExpr(Expr {
        line: word.line,
        kind,
    }))
}

/// `other = "(" expr ")"`
fn grouped(stack: &mut Values, alloc: Global) -> Result<(), NoMemory>
    requires { Tops (args Action.Group) stack.old }
    ensures { OnOk result (Some stack.new ≡ perform sisal Action.Group stack.old) }
{
    let open = stack.take_token();
    let inner = stack.take_expr();
    let _close = stack.take_token();
    let kind = ExprKind::Group(Held::new(alloc, inner)?);
    stack.push(Value::AnExpr(Expr {
        line: open.line,
        kind,
    }))
}

/// `other = "error" "[" type "]"`
fn error_of(stack: &mut Values) -> Result<(), NoMemory>
    requires { Tops (args Action.ErrorOf) stack.old }
    ensures { OnOk result (Some stack.new ≡ perform sisal Action.ErrorOf stack.old) }
{
    let word = stack.take_token();
    let _open = stack.take_token();
    let ty = stack.take_written();
    let _close = stack.take_token();
    let kind = ExprKind::ErrorOf(ty);
    stack.push(Value::AnExpr(Expr {
        line: word.line,
        kind,
    }))
}

/// `other = "is" is_what "(" expr ")"`
fn is_of(stack: &mut Values, alloc: Global) -> Result<(), NoMemory>
    requires { Tops (args Action.Is) stack.old }
    ensures { OnOk result (Some stack.new ≡ perform sisal Action.Is stack.old) }
{
    let word = stack.take_token();
    let tag = stack.take_maybe_name();
    let _open = stack.take_token();
    let value = stack.take_expr();
    let _close = stack.take_token();
    let test = asked(alloc, word.line, tag, value)?;
    stack.push(Value::AnExpr(test))
}

/// `content =`
fn no_expr(stack: &mut Values) -> Result<(), NoMemory>
    requires { Tops (args Action.NoExpr) stack.old }
    ensures { OnOk result (Some stack.new ≡ perform sisal Action.NoExpr stack.old) }
{
    stack.push(Value::MaybeExpr(None))
}

/// `content = ":" expr`
fn some_expr(stack: &mut Values) -> Result<(), NoMemory>
    requires { Tops (args Action.SomeExpr) stack.old }
    ensures { OnOk result (Some stack.new ≡ perform sisal Action.SomeExpr stack.old) }
{
    let _sign = stack.take_token();
    let expr = stack.take_expr();
    stack.push(Value::MaybeExpr(Some(expr)))
}
