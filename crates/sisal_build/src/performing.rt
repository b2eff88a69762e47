//! The actions of all productions.

ghost use Rattle.std.specs.Prelude.{◌≡◌, OnOk, Some};
ghost use Rattle.pushdown.specs.Meaning.{perform};
ghost use Rattle.sisal_grammar.specs.Acts.{sisal};
ghost use Rattle.sisal_grammar.specs.Sorts.{args};
ghost use Rattle.parse_stack.specs.Stack.{Tops};

use crate::task::{Task, task_of};
use flow_value::NoMemory;
use parse_stack::Values;
use sisal_expr_acts::{perform_case, perform_compound, perform_expr, perform_selector};
use sisal_grammar::Action;
use sisal_unit_acts::{perform_clause, perform_def, perform_loop, perform_type, perform_unit};
use std::alloc::Global;

/// Takes the values of a production's symbols, and puts what the production makes of them.
pub fn perform(stack: &mut Values, alloc: Global, action: Action) -> Result<(), NoMemory>
    requires { Tops (args action) stack.old }
    ensures { OnOk result (Some stack.new ≡ perform sisal action stack.old) }
{
    match task_of(action) {
        Task::Unit(act) => perform_unit(stack, alloc, act),
        Task::Type(act) => perform_type(stack, alloc, act),
        Task::Def(act) => perform_def(stack, alloc, act),
        Task::Loop(act) => perform_loop(stack, alloc, act),
        Task::Clause(act) => perform_clause(stack, alloc, act),
        Task::Expr(act) => perform_expr(stack, alloc, act),
        Task::Selector(act) => perform_selector(stack, alloc, act),
        Task::Compound(act) => perform_compound(stack, alloc, act),
        Task::Case(act) => perform_case(stack, alloc, act),
    }
}
