//! Loops: what each production makes of the values of its symbols.

ghost use Rattle.std.specs.Prelude.{◌≡◌, OnOk, Some};
ghost use Rattle.pushdown.specs.Meaning.{perform};
ghost use Rattle.sisal_grammar.specs.Acts.{sisal};
ghost use Rattle.sisal_grammar.specs.Sorts.{args};
ghost use Rattle.parse_stack.specs.Stack.{Tops};
ghost use Rattle.sisal_unit_acts.specs.Actions.{loop_action};

use flow_value::{Held, NoMemory};
use parse_stack::{Values, is_until, name_in, named};
use sisal_grammar::{Action, Back, Test, Value};
use sisal_tree::{Generator, Loop, Turn};
use std::alloc::Global;

/// The actions of loops.
#[derive(Clone, Copy)]
pub enum LoopAct {
    /// `loop = group groups body "returns" clause clauses`
    Product,
    /// `loop = "initial" defs turn "returns" clause clauses`
    Initial,
    /// `groups =`
    NoGroups,
    /// `groups = "cross" group groups`
    MoreGroups,
    /// `group = gen gens`
    Gens,
    /// `gens =`
    NoGens,
    /// `gens = "dot" gen gens`
    MoreGens,
    /// `gen = @name "in" expr to at`
    OneGen,
    /// `at = "at" @name`
    AtName,
    /// `turn = test "repeat" defs`
    TestFirst,
    /// `turn = "repeat" defs test`
    TestLast,
    /// `test = "while" expr` and the like
    OneTest,
}

/// Takes the values of a production's symbols, and puts what the production makes of them.
pub fn perform_loop(stack: &mut Values, alloc: Global, act: LoopAct) -> Result<(), NoMemory>
    requires { Tops (args (loop_action act)) stack.old }
    ensures { OnOk result (Some stack.new ≡ perform sisal (loop_action act) stack.old) }
{
    match act {
        LoopAct::Product => product_loop(stack),
        LoopAct::Initial => initial_loop(stack),
        LoopAct::NoGroups => no_groups(stack, alloc),
        LoopAct::MoreGroups => more_groups(stack),
        LoopAct::Gens => generators(stack),
        LoopAct::NoGens => no_generators(stack, alloc),
        LoopAct::MoreGens => more_generators(stack),
        LoopAct::OneGen => generator(stack),
        LoopAct::AtName => at_name(stack),
        LoopAct::TestFirst => test_first(stack, alloc),
        LoopAct::TestLast => test_last(stack, alloc),
        LoopAct::OneTest => one_test(stack),
    }
}

/// `loop = group groups body "returns" clause clauses`
fn product_loop(stack: &mut Values) -> Result<(), NoMemory>
    requires { Tops (args Action.Product) stack.old }
    ensures { OnOk result (Some stack.new ≡ perform sisal Action.Product stack.old) }
{
    let first = stack.take_generators();
    let mut rest = stack.take_groups();
    let defs = stack.take_defs();
    let _returns = stack.take_token();
    let clause = stack.take_clause();
    let mut clauses = stack.take_clauses();
    rest.push(first.into_seq())?;
    clauses.push(clause)?;
    let groups = rest.into_seq();
    stack.push(Value::ALoop(Loop::Product(groups, defs.into_seq(), clauses.into_seq())))
}

/// `loop = "initial" defs turn "returns" clause clauses`
fn initial_loop(stack: &mut Values) -> Result<(), NoMemory>
    requires { Tops (args Action.Initial) stack.old }
    ensures { OnOk result (Some stack.new ≡ perform sisal Action.Initial stack.old) }
{
    let _initial = stack.take_token();
    let defs = stack.take_defs();
    let turn = stack.take_turn();
    let _returns = stack.take_token();
    let clause = stack.take_clause();
    let mut clauses = stack.take_clauses();
    clauses.push(clause)?;
    stack.push(Value::ALoop(Loop::Initial(defs.into_seq(), turn, clauses.into_seq())))
}

/// `groups =`
fn no_groups(stack: &mut Values, alloc: Global) -> Result<(), NoMemory>
    requires { Tops (args Action.NoGroups) stack.old }
    ensures { OnOk result (Some stack.new ≡ perform sisal Action.NoGroups stack.old) }
{
    stack.push(Value::Groups(Back::new(alloc)))
}

/// `groups = "cross" group groups`
fn more_groups(stack: &mut Values) -> Result<(), NoMemory>
    requires { Tops (args Action.MoreGroups) stack.old }
    ensures { OnOk result (Some stack.new ≡ perform sisal Action.MoreGroups stack.old) }
{
    let _cross = stack.take_token();
    let first = stack.take_generators();
    let mut rest = stack.take_groups();
    rest.push(first.into_seq())?;
    stack.push(Value::Groups(rest))
}

/// `group = gen gens`
fn generators(stack: &mut Values) -> Result<(), NoMemory>
    requires { Tops (args Action.Gens) stack.old }
    ensures { OnOk result (Some stack.new ≡ perform sisal Action.Gens stack.old) }
{
    let first = stack.take_generator();
    let mut rest = stack.take_generators();
    rest.push(first)?;
    stack.push(Value::Gens(rest))
}

/// `gens =`
fn no_generators(stack: &mut Values, alloc: Global) -> Result<(), NoMemory>
    requires { Tops (args Action.NoGens) stack.old }
    ensures { OnOk result (Some stack.new ≡ perform sisal Action.NoGens stack.old) }
{
    stack.push(Value::Gens(Back::new(alloc)))
}

/// `gens = "dot" gen gens`
fn more_generators(stack: &mut Values) -> Result<(), NoMemory>
    requires { Tops (args Action.MoreGens) stack.old }
    ensures { OnOk result (Some stack.new ≡ perform sisal Action.MoreGens stack.old) }
{
    let _dot = stack.take_token();
    let first = stack.take_generator();
    let mut rest = stack.take_generators();
    rest.push(first)?;
    stack.push(Value::Gens(rest))
}

/// `gen = @name "in" expr to at`
fn generator(stack: &mut Values) -> Result<(), NoMemory>
    requires { Tops (args Action.OneGen) stack.old }
    ensures { OnOk result (Some stack.new ≡ perform sisal Action.OneGen stack.old) }
{
    let name = stack.take_token();
    let _in = stack.take_token();
    let from = stack.take_expr();
    let to = stack.take_maybe_expr();
    let at = stack.take_maybe_name();
    let name = named(&name);
    stack.push(Value::AGen(Generator { name, from, to, at }))
}

/// `at = "at" @name`
fn at_name(stack: &mut Values) -> Result<(), NoMemory>
    requires { Tops (args Action.AtName) stack.old }
    ensures { OnOk result (Some stack.new ≡ perform sisal Action.AtName stack.old) }
{
    let _at = stack.take_token();
    let name = stack.take_token();
    stack.push(Value::MaybeName(Some(name_in(&name))))
}

/// `turn = test "repeat" defs`
fn test_first(stack: &mut Values, alloc: Global) -> Result<(), NoMemory>
    requires { Tops (args Action.TestFirst) stack.old }
    ensures { OnOk result (Some stack.new ≡ perform sisal Action.TestFirst stack.old) }
{
    let test = stack.take_test();
    let _repeat = stack.take_token();
    let defs = stack.take_defs();
    let is_until = test.is_until;
    let test = Held::new(alloc, test.test)?;
    let defs = defs.into_seq();
    stack.push(Value::ATurn(Turn {
        is_first: true,
        is_until,
        test,
        defs,
    }))
}

/// `turn = "repeat" defs test`
fn test_last(stack: &mut Values, alloc: Global) -> Result<(), NoMemory>
    requires { Tops (args Action.TestLast) stack.old }
    ensures { OnOk result (Some stack.new ≡ perform sisal Action.TestLast stack.old) }
{
    let _repeat = stack.take_token();
    let defs = stack.take_defs();
    let test = stack.take_test();
    let is_until = test.is_until;
    let test = Held::new(alloc, test.test)?;
    let defs = defs.into_seq();
    stack.push(Value::ATurn(Turn {
        is_first: false,
        is_until,
        test,
        defs,
    }))
}

/// `test = "while" expr`
fn one_test(stack: &mut Values) -> Result<(), NoMemory>
    requires { Tops (args Action.OneTest) stack.old }
    ensures { OnOk result (Some stack.new ≡ perform sisal Action.OneTest stack.old) }
{
    let word = stack.take_token();
    let test = stack.take_expr();
    let is_until = is_until(&word.kind);
    stack.push(Value::ATest(Test { is_until, test }))
}
