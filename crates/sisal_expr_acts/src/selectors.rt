//! What follows an operand: what each production makes of the values of its symbols.

ghost use Rattle.std.specs.Prelude.{◌≡◌, OnOk, Some};
ghost use Rattle.pushdown.specs.Meaning.{perform};
ghost use Rattle.sisal_grammar.specs.Acts.{sisal};
ghost use Rattle.sisal_grammar.specs.Sorts.{args};
ghost use Rattle.parse_stack.specs.Stack.{Tops};
ghost use Rattle.sisal_expr_acts.specs.Actions.{selector_action};

use crate::folds::{bracketed, posted};
use flow_value::NoMemory;
use parse_stack::{Values, name_in, named};
use sisal_grammar::{Action, Back, Bracket, Selector, Value};
use sisal_tree::FieldValue;
use std::alloc::Global;

/// The actions of what follows an operand.
#[derive(Clone, Copy)]
pub enum SelectorAct {
    /// `post = prim posts` and the like
    Posted,
    /// `posts =`
    NoPosts,
    /// `posts = selector posts`
    MorePosts,
    /// `selector = "[" expr index`
    Bracket,
    /// `selector = "." @name`
    Dot,
    /// `selector = "replace" "[" fv fvs "]"`
    Replaced,
    /// `index = "]"`
    CloseBracket,
    /// `index = "," expr exprs_more "]"`
    MoreBracket,
    /// `index = ":" expr "]"`
    ColonBracket,
    /// `fv = @name ":" expr`
    OneValue,
    /// `fvs =` and the like
    NoValues,
    /// `fvs = ";" fvs_more`
    SemiValues,
    /// `fvs_more = fv fvs`
    MoreValues,
}

/// Takes the values of a production's symbols, and puts what the production makes of them.
pub fn perform_selector(stack: &mut Values, alloc: Global, act: SelectorAct) -> Result<(), NoMemory>
    requires { Tops (args (selector_action act)) stack.old }
    ensures { OnOk result (Some stack.new ≡ perform sisal (selector_action act) stack.old) }
{
    match act {
        SelectorAct::Posted => post(stack, alloc),
        SelectorAct::NoPosts => no_posts(stack, alloc),
        SelectorAct::MorePosts => more_posts(stack),
        SelectorAct::Bracket => bracket(stack),
        SelectorAct::Dot => dot(stack),
        SelectorAct::Replaced => replaced(stack),
        SelectorAct::CloseBracket => close_bracket(stack, alloc),
        SelectorAct::MoreBracket => more_bracket(stack),
        SelectorAct::ColonBracket => colon_bracket(stack),
        SelectorAct::OneValue => one_value(stack),
        SelectorAct::NoValues => no_values(stack, alloc),
        SelectorAct::SemiValues => semi_values(stack),
        SelectorAct::MoreValues => more_values(stack),
    }
}

/// `post = prim posts`
fn post(stack: &mut Values, alloc: Global) -> Result<(), NoMemory>
    requires { Tops (args Action.Posted) stack.old }
    ensures { OnOk result (Some stack.new ≡ perform sisal Action.Posted stack.old) }
{
    let operand = stack.take_expr();
    let posts = stack.take_posts();
    let whole = posted(alloc, operand, posts)?;
    stack.push(Value::AnExpr(whole))
}

/// `posts =`
fn no_posts(stack: &mut Values, alloc: Global) -> Result<(), NoMemory>
    requires { Tops (args Action.NoPosts) stack.old }
    ensures { OnOk result (Some stack.new ≡ perform sisal Action.NoPosts stack.old) }
{
    stack.push(Value::Posts(Back::new(alloc)))
}

/// `posts = selector posts`
fn more_posts(stack: &mut Values) -> Result<(), NoMemory>
    requires { Tops (args Action.MorePosts) stack.old }
    ensures { OnOk result (Some stack.new ≡ perform sisal Action.MorePosts stack.old) }
{
    let first = stack.take_post();
    let mut rest = stack.take_posts();
    rest.push(first)?;
    stack.push(Value::Posts(rest))
}

/// `selector = "[" expr index`
fn bracket(stack: &mut Values) -> Result<(), NoMemory>
    requires { Tops (args Action.Bracket) stack.old }
    ensures { OnOk result (Some stack.new ≡ perform sisal Action.Bracket stack.old) }
{
    let _open = stack.take_token();
    let first = stack.take_expr();
    let bracket = stack.take_bracket();
    let selector = bracketed(first, bracket)?;
    stack.push(Value::APost(selector))
}

/// `selector = "." @name`
fn dot(stack: &mut Values) -> Result<(), NoMemory>
    requires { Tops (args Action.Dot) stack.old }
    ensures { OnOk result (Some stack.new ≡ perform sisal Action.Dot stack.old) }
{
    let _dot = stack.take_token();
    let name = stack.take_token();
    stack.push(Value::APost(Selector::Field(name_in(&name))))
}

/// `selector = "replace" "[" fv fvs "]"`
fn replaced(stack: &mut Values) -> Result<(), NoMemory>
    requires { Tops (args Action.Replaced) stack.old }
    ensures { OnOk result (Some stack.new ≡ perform sisal Action.Replaced stack.old) }
{
    let _replace = stack.take_token();
    let _open = stack.take_token();
    let first = stack.take_field_value();
    let mut rest = stack.take_field_values();
    let _close = stack.take_token();
    rest.push(first)?;
    stack.push(Value::APost(Selector::Replace(rest.into_seq())))
}

/// `index = "]"`
fn close_bracket(stack: &mut Values, alloc: Global) -> Result<(), NoMemory>
    requires { Tops (args Action.CloseBracket) stack.old }
    ensures { OnOk result (Some stack.new ≡ perform sisal Action.CloseBracket stack.old) }
{
    let _close = stack.take_token();
    stack.push(Value::ABracket(Bracket::Further(Back::new(alloc))))
}

/// `index = "," expr exprs_more "]"`
fn more_bracket(stack: &mut Values) -> Result<(), NoMemory>
    requires { Tops (args Action.MoreBracket) stack.old }
    ensures { OnOk result (Some stack.new ≡ perform sisal Action.MoreBracket stack.old) }
{
    let _comma = stack.take_token();
    let first = stack.take_expr();
    let mut rest = stack.take_exprs();
    let _close = stack.take_token();
    rest.push(first)?;
    stack.push(Value::ABracket(Bracket::Further(rest)))
}

/// `index = ":" expr "]"`
fn colon_bracket(stack: &mut Values) -> Result<(), NoMemory>
    requires { Tops (args Action.ColonBracket) stack.old }
    ensures { OnOk result (Some stack.new ≡ perform sisal Action.ColonBracket stack.old) }
{
    let _colon = stack.take_token();
    let value = stack.take_expr();
    let _close = stack.take_token();
    stack.push(Value::ABracket(Bracket::Colon(value)))
}

/// `fv = @name ":" expr`
fn one_value(stack: &mut Values) -> Result<(), NoMemory>
    requires { Tops (args Action.OneValue) stack.old }
    ensures { OnOk result (Some stack.new ≡ perform sisal Action.OneValue stack.old) }
{
    let name = stack.take_token();
    let _colon = stack.take_token();
    let value = stack.take_expr();
    stack.push(Value::AValue(FieldValue {
        field: named(&name),
        value,
    }))
}

/// `fvs =`
fn no_values(stack: &mut Values, alloc: Global) -> Result<(), NoMemory>
    requires { Tops (args Action.NoValues) stack.old }
    ensures { OnOk result (Some stack.new ≡ perform sisal Action.NoValues stack.old) }
{
    stack.push(Value::Values(Back::new(alloc)))
}

/// `fvs = ";" fvs_more`
fn semi_values(stack: &mut Values) -> Result<(), NoMemory>
    requires { Tops (args Action.SemiValues) stack.old }
    ensures { OnOk result (Some stack.new ≡ perform sisal Action.SemiValues stack.old) }
{
    let _semicolon = stack.take_token();
    let rest = stack.take_field_values();
    stack.push(Value::Values(rest))
}

/// `fvs_more = fv fvs`
fn more_values(stack: &mut Values) -> Result<(), NoMemory>
    requires { Tops (args Action.MoreValues) stack.old }
    ensures { OnOk result (Some stack.new ≡ perform sisal Action.MoreValues stack.old) }
{
    let first = stack.take_field_value();
    let mut rest = stack.take_field_values();
    rest.push(first)?;
    stack.push(Value::Values(rest))
}
