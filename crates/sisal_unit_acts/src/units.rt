//! Units, types and functions: what each production makes of the values of its symbols.

ghost use Rattle.std.specs.Prelude.{◌≡◌, OnOk, Some};
ghost use Rattle.pushdown.specs.Meaning.{perform};
ghost use Rattle.sisal_grammar.specs.Acts.{sisal};
ghost use Rattle.sisal_grammar.specs.Sorts.{args};
ghost use Rattle.parse_stack.specs.Stack.{Tops};
ghost use Rattle.sisal_unit_acts.specs.Actions.{unit_action};

use flow_value::NoMemory;
use parse_stack::{Values, name_in, named};
use sisal_grammar::{Action, Back, Outline, Value};
use sisal_tree::{FunDef, FunKind, Header, Item, TypeDef};
use std::alloc::Global;

/// The actions of units and functions.
#[derive(Clone, Copy)]
pub enum UnitAct {
    /// `unit = "define" @name names semi items`
    Whole,
    /// `names =`
    NoNames,
    /// `names = "," @name names`
    MoreNames,
    /// `semi =` and the like
    Absent,
    /// `semi = ";"`
    Sign,
    /// `items =`
    NoItems,
    /// `items = item items`
    MoreItems,
    /// `item = "type" @name "=" type semi`
    Alias,
    /// `item = "forward" "function" header semi`
    Forward,
    /// `item = "global" header semi`
    Global,
    /// `item = "function" header exprs "end" "function" semi`
    Defined,
    /// `header = @name "(" fields_more "returns" type types ")"`
    OneHeader,
}

/// Takes the values of a production's symbols, and puts what the production makes of them.
pub fn perform_unit(stack: &mut Values, alloc: Global, act: UnitAct) -> Result<(), NoMemory>
    requires { Tops (args (unit_action act)) stack.old }
    ensures { OnOk result (Some stack.new ≡ perform sisal (unit_action act) stack.old) }
{
    match act {
        UnitAct::Whole => whole(stack),
        UnitAct::NoNames => no_names(stack, alloc),
        UnitAct::MoreNames => more_names(stack),
        UnitAct::Absent => absent(stack),
        UnitAct::Sign => sign(stack),
        UnitAct::NoItems => no_items(stack, alloc),
        UnitAct::MoreItems => more_items(stack),
        UnitAct::Alias => alias(stack),
        UnitAct::Forward => forward_function(stack),
        UnitAct::Global => global_function(stack),
        UnitAct::Defined => defined_function(stack),
        UnitAct::OneHeader => one_header(stack),
    }
}

/// `unit = "define" @name names semi items`
fn whole(stack: &mut Values) -> Result<(), NoMemory>
    requires { Tops (args Action.Whole) stack.old }
    ensures { OnOk result (Some stack.new ≡ perform sisal Action.Whole stack.old) }
{
    let _define = stack.take_token();
    let name = stack.take_token();
    let mut names = stack.take_names();
    stack.take_nothing();
    let items = stack.take_items();
    names.push(named(&name))?;
    stack.push(Value::AnOutline(Outline {
        defines: names.into_seq(),
        items: items.into_seq(),
    }))
}

/// `names =`
fn no_names(stack: &mut Values, alloc: Global) -> Result<(), NoMemory>
    requires { Tops (args Action.NoNames) stack.old }
    ensures { OnOk result (Some stack.new ≡ perform sisal Action.NoNames stack.old) }
{
    stack.push(Value::Names(Back::new(alloc)))
}

/// `names = "," @name names`
fn more_names(stack: &mut Values) -> Result<(), NoMemory>
    requires { Tops (args Action.MoreNames) stack.old }
    ensures { OnOk result (Some stack.new ≡ perform sisal Action.MoreNames stack.old) }
{
    let _comma = stack.take_token();
    let name = stack.take_token();
    let mut rest = stack.take_names();
    rest.push(named(&name))?;
    stack.push(Value::Names(rest))
}

/// `semi =`
fn absent(stack: &mut Values) -> Result<(), NoMemory>
    requires { Tops (args Action.Absent) stack.old }
    ensures { OnOk result (Some stack.new ≡ perform sisal Action.Absent stack.old) }
{
    stack.push(Value::Nothing)
}

/// `semi = ";"`
fn sign(stack: &mut Values) -> Result<(), NoMemory>
    requires { Tops (args Action.Sign) stack.old }
    ensures { OnOk result (Some stack.new ≡ perform sisal Action.Sign stack.old) }
{
    let _sign = stack.take_token();
    stack.push(Value::Nothing)
}

/// `items =`
fn no_items(stack: &mut Values, alloc: Global) -> Result<(), NoMemory>
    requires { Tops (args Action.NoItems) stack.old }
    ensures { OnOk result (Some stack.new ≡ perform sisal Action.NoItems stack.old) }
{
    stack.push(Value::Items(Back::new(alloc)))
}

/// `items = item items`
fn more_items(stack: &mut Values) -> Result<(), NoMemory>
    requires { Tops (args Action.MoreItems) stack.old }
    ensures { OnOk result (Some stack.new ≡ perform sisal Action.MoreItems stack.old) }
{
    let first = stack.take_item();
    let mut rest = stack.take_items();
    rest.push(first)?;
    stack.push(Value::Items(rest))
}

/// `item = "type" @name "=" type semi`
fn alias(stack: &mut Values) -> Result<(), NoMemory>
    requires { Tops (args Action.Alias) stack.old }
    ensures { OnOk result (Some stack.new ≡ perform sisal Action.Alias stack.old) }
{
    let word = stack.take_token();
    let name = stack.take_token();
    let _equal = stack.take_token();
    let ty = stack.take_written();
    stack.take_nothing();
    stack.push(Value::AnItem(Item::Alias(TypeDef {
        line: word.line,
        name: name_in(&name),
        ty,
    })))
}

/// `item = "forward" "function" header semi`
fn forward_function(stack: &mut Values) -> Result<(), NoMemory>
    requires { Tops (args Action.Forward) stack.old }
    ensures { OnOk result (Some stack.new ≡ perform sisal Action.Forward stack.old) }
{
    let word = stack.take_token();
    let _function = stack.take_token();
    let header = stack.take_header();
    stack.take_nothing();
    stack.push(Value::AnItem(Item::Function(FunDef {
        line: word.line,
        header,
        kind: FunKind::Forward,
    })))
}

/// `item = "global" header semi`
fn global_function(stack: &mut Values) -> Result<(), NoMemory>
    requires { Tops (args Action.Global) stack.old }
    ensures { OnOk result (Some stack.new ≡ perform sisal Action.Global stack.old) }
{
    let word = stack.take_token();
    let header = stack.take_header();
    stack.take_nothing();
    stack.push(Value::AnItem(Item::Function(FunDef {
        line: word.line,
        header,
        kind: FunKind::Global,
    })))
}

/// `item = "function" header exprs "end" "function" semi`
fn defined_function(stack: &mut Values) -> Result<(), NoMemory>
    requires { Tops (args Action.Defined) stack.old }
    ensures { OnOk result (Some stack.new ≡ perform sisal Action.Defined stack.old) }
{
    let word = stack.take_token();
    let header = stack.take_header();
    let results = stack.take_exprs();
    let _end = stack.take_token();
    let _function = stack.take_token();
    stack.take_nothing();
    let kind = FunKind::Defined(results.into_seq());
    stack.push(Value::AnItem(Item::Function(FunDef {
        line: word.line,
        header,
        kind,
    })))
}

/// `header = @name "(" fields_more "returns" type types ")"`
fn one_header(stack: &mut Values) -> Result<(), NoMemory>
    requires { Tops (args Action.OneHeader) stack.old }
    ensures { OnOk result (Some stack.new ≡ perform sisal Action.OneHeader stack.old) }
{
    let name = stack.take_token();
    let _open = stack.take_token();
    let params = stack.take_fields();
    let _returns = stack.take_token();
    let first = stack.take_written();
    let mut results = stack.take_types();
    let _close = stack.take_token();
    results.push(first)?;
    stack.push(Value::AHeader(Header {
        name: named(&name),
        params: params.into_seq(),
        results: results.into_seq(),
    }))
}
