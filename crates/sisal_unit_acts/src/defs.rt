//! Definitions: what each production makes of the values of its symbols.

ghost use Rattle.std.specs.Prelude.{◌≡◌, OnOk, Some};
ghost use Rattle.pushdown.specs.Meaning.{perform};
ghost use Rattle.sisal_grammar.specs.Acts.{sisal};
ghost use Rattle.sisal_grammar.specs.Sorts.{args};
ghost use Rattle.parse_stack.specs.Stack.{Tops};
ghost use Rattle.sisal_unit_acts.specs.Actions.{def_action};

use flow_value::NoMemory;
use parse_stack::{Values, named};
use sisal_grammar::{Action, Back, Value};
use sisal_tree::{Def, Target};
use std::alloc::Global;

/// The actions of definitions.
#[derive(Clone, Copy)]
pub enum DefAct {
    /// `body =` and the like
    NoDefs,
    /// `body = defs`
    SameDefs,
    /// `defs = def defs_more` and the like
    Defs,
    /// `defs_more = ";" defs_rest`
    SemiDefs,
    /// `def = target targets ":=" exprs`
    OneDef,
    /// `targets =`
    NoTargets,
    /// `targets = "," target targets`
    MoreTargets,
    /// `target = @name of_type`
    OneTarget,
}

/// Takes the values of a production's symbols, and puts what the production makes of them.
pub fn perform_def(stack: &mut Values, alloc: Global, act: DefAct) -> Result<(), NoMemory>
    requires { Tops (args (def_action act)) stack.old }
    ensures { OnOk result (Some stack.new ≡ perform sisal (def_action act) stack.old) }
{
    match act {
        DefAct::NoDefs => no_defs(stack, alloc),
        DefAct::SameDefs => same_defs(stack),
        DefAct::Defs => definitions(stack),
        DefAct::SemiDefs => semi_defs(stack),
        DefAct::OneDef => definition(stack),
        DefAct::NoTargets => no_targets(stack, alloc),
        DefAct::MoreTargets => more_targets(stack),
        DefAct::OneTarget => one_target(stack),
    }
}

/// `body =`
fn no_defs(stack: &mut Values, alloc: Global) -> Result<(), NoMemory>
    requires { Tops (args Action.NoDefs) stack.old }
    ensures { OnOk result (Some stack.new ≡ perform sisal Action.NoDefs stack.old) }
{
    stack.push(Value::Defs(Back::new(alloc)))
}

/// `body = defs`
fn same_defs(stack: &mut Values) -> Result<(), NoMemory>
    requires { Tops (args Action.SameDefs) stack.old }
    ensures { OnOk result (Some stack.new ≡ perform sisal Action.SameDefs stack.old) }
{
    let defs = stack.take_defs();
    stack.push(Value::Defs(defs))
}

/// `defs = def defs_more`
fn definitions(stack: &mut Values) -> Result<(), NoMemory>
    requires { Tops (args Action.Defs) stack.old }
    ensures { OnOk result (Some stack.new ≡ perform sisal Action.Defs stack.old) }
{
    let first = stack.take_def();
    let mut rest = stack.take_defs();
    rest.push(first)?;
    stack.push(Value::Defs(rest))
}

/// `defs_more = ";" defs_rest`
fn semi_defs(stack: &mut Values) -> Result<(), NoMemory>
    requires { Tops (args Action.SemiDefs) stack.old }
    ensures { OnOk result (Some stack.new ≡ perform sisal Action.SemiDefs stack.old) }
{
    let _semicolon = stack.take_token();
    let rest = stack.take_defs();
    stack.push(Value::Defs(rest))
}

/// `def = target targets ":=" exprs`
fn definition(stack: &mut Values) -> Result<(), NoMemory>
    requires { Tops (args Action.OneDef) stack.old }
    ensures { OnOk result (Some stack.new ≡ perform sisal Action.OneDef stack.old) }
{
    let first = stack.take_target();
    let mut rest = stack.take_targets();
    let _assign = stack.take_token();
    let values = stack.take_exprs();
    rest.push(first)?;
    stack.push(Value::ADef(Def {
        targets: rest.into_seq(),
        values: values.into_seq(),
    }))
}

/// `targets =`
fn no_targets(stack: &mut Values, alloc: Global) -> Result<(), NoMemory>
    requires { Tops (args Action.NoTargets) stack.old }
    ensures { OnOk result (Some stack.new ≡ perform sisal Action.NoTargets stack.old) }
{
    stack.push(Value::Targets(Back::new(alloc)))
}

/// `targets = "," target targets`
fn more_targets(stack: &mut Values) -> Result<(), NoMemory>
    requires { Tops (args Action.MoreTargets) stack.old }
    ensures { OnOk result (Some stack.new ≡ perform sisal Action.MoreTargets stack.old) }
{
    let _comma = stack.take_token();
    let first = stack.take_target();
    let mut rest = stack.take_targets();
    rest.push(first)?;
    stack.push(Value::Targets(rest))
}

/// `target = @name of_type`
fn one_target(stack: &mut Values) -> Result<(), NoMemory>
    requires { Tops (args Action.OneTarget) stack.old }
    ensures { OnOk result (Some stack.new ≡ perform sisal Action.OneTarget stack.old) }
{
    let name = stack.take_token();
    let ty = stack.take_maybe_type();
    let name = named(&name);
    stack.push(Value::ATarget(Target { name, ty }))
}
