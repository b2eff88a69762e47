//! The values of a function.
ghost use Rattle.std.specs.Prelude.{◌≡◌, ℕ, ◌+◌, ◌<◌, ◌≤◌, List, IfOk, IfErr, IfSome, Some, None, Ok};
ghost use Rattle.flow_value.specs.declared.value.Val.{Val};
ghost use Rattle.meaning.specs.Timed.{Below, Moves, Passes};
ghost use Rattle.meaning.specs.Meaning.{calls};
ghost use Rattle.meaning.specs.Descents.{turns_to, turns_down};
ghost use Rattle.source_meaning.specs.Tasks.{outcome_by, answer, after_task};
ghost use Rattle.typed_tree.specs.declared.expr.TypedExpr.{TypedExpr};
ghost use Rattle.typed_tree.specs.declared.expr.Turns.{Turns};
ghost use Rattle.typed_tree.specs.declared.program.Function.{Function};

use crate::finish::enter;
use crate::machine::run;
use crate::slots::{Given, add_values};
use crate::state::{After, Going, State};
use flow_value::{Items, NoMemory};
use std::alloc::Global;
use thiserror::Error;
use typed_tree::{Function, Program};

/// The values of a function, and the steps that they took.
#[derive(Drop)]
pub struct Found {
    /// The values of the results, in order.
    pub values: Items,
    /// The steps.
    pub steps: u64,
}

/// Why there are no values.
#[derive(Clone, Copy, Debug, PartialEq, Eq, Drop, Error)]
pub enum MeanFault {
    /// No values come within the limit of steps.
    #[error("turn limit")]
    TurnLimit,
    /// Want of memory.
    #[error("no memory")]
    NoMemory,
}

/// Goes into a function, and on until no work is left, or the limit is reached.
fn start<'a>(
    alloc: Global,
    program: &'a [Function],
    limit: u64,
    state: &mut State<'a>,
    function: u32,
    args: Items,
) -> Result<Going, NoMemory>
    ensures moves { IfOk result (λ g. g ≡ Going.On → Moves (outcome_by (after_task (After.Enter function) args) state.old program.now) (answer state.new)) }
    ensures limit { IfOk result (λ g. g ≡ Going.Limit → Passes limit (outcome_by (after_task (After.Enter function) args) state.old program.now)) }
    ensures bound { IfOk result (λ g. state.old.steps ≤ limit → state.new.steps ≤ limit) }
{
    match enter(alloc, program, limit, state, function, args)? {
        Going::On => {
            let going = run(alloc, program, limit, state)?;
            Ok(going)
        }
        Going::Limit => Ok(Going::Limit),
    }
}

/// Evaluates a function.
fn evaluate(
    alloc: Global,
    program: &Program,
    function: u32,
    args: Items,
    limit: u64,
) -> Result<Option<Found>, NoMemory>
    ensures found { IfOk result (λ o. IfSome o (λ r. (r.steps ≤ limit) × ((n : ℕ) × (calls n program.now.functions function args ≡ Some (r.values, r.steps))))) }
    ensures turn_limit { result ≡ Ok None → (n steps : ℕ) (values : List Val) → calls n program.now.functions function args ≡ Some (values, steps) → limit < steps }
{
    let functions = program.functions.as_slice();
    let mut state = State {
        frames: Vec::new(alloc),
        names: Items::new(alloc),
        given: Given::Nothing,
        steps: 0,
    };
    match start(alloc, functions, limit, &mut state, function, args)? {
        Going::On => {
            let State { given, steps, .. } = state;
            let mut values = Items::new(alloc);
            add_values(&mut values, given)?;
            Ok(Some(Found { values, steps }))
        }
        Going::Limit => Ok(None),
    }
}

/// The values that the definition gives to a call of a function at some depth, if that takes at
/// most `limit` steps. The function stands by its number.
pub fn mean(
    alloc: Global,
    program: &Program,
    function: u32,
    args: Items,
    limit: u64,
) -> Result<Found, MeanFault>
    ensures found { IfOk result (λ r. (r.steps ≤ limit) × ((n : ℕ) × (calls n program.now.functions function args ≡ Some (r.values, r.steps)))) }
    ensures turn_limit { IfErr result (λ e. e ≡ MeanFault.TurnLimit → (n steps : ℕ) (values : List Val) → calls n program.now.functions function args ≡ Some (values, steps) → limit < steps) }
{
    match evaluate(alloc, program, function, args, limit) {
        Ok(Some(found)) => Ok(found),
        Ok(None) => Err(MeanFault::TurnLimit),
        Err(_) => Err(MeanFault::NoMemory),
    }
}

/// What is given at one depth is given at every greater one, and no two depths give different
/// values or steps.
pub fn depths_agree()
    ensures greater { (p : List Function) (f : ℕ) (vs : List Val) (n m : ℕ) (r : List Val × ℕ) → n ≤ m → calls n p f vs ≡ Some r → calls m p f vs ≡ Some r }
    ensures one_value { (p : List Function) (f : ℕ) (vs : List Val) (n m : ℕ) (r s : List Val × ℕ) → calls n p f vs ≡ Some r → calls m p f vs ≡ Some s → r ≡ s }
{}

/// Turns of a loop whose parts go one depth less at each turn give what turns give whose parts all
/// go to one depth, and the other way round: so it does not matter which of them bounds a loop.
pub fn turns_agree()
    ensures falls { (p : List Function) (t : Turns) (ts : List TypedExpr) (ds : List (List TypedExpr)) (env l : List Val) (n : ℕ) → Below (turns_down n p t ts ds env l) (turns_to n n p t ts ds env l) }
    ensures rises { (p : List Function) (t : Turns) (ts : List TypedExpr) (ds : List (List TypedExpr)) (env l : List Val) (n d : ℕ) → Below (turns_to n d p t ts ds env l) (turns_down (n + d) p t ts ds env l) }
{}
