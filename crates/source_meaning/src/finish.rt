//! What is done with the values of a list of expressions.
ghost use Rattle.std.specs.Prelude.{◌≡◌, ℕ, ◌+◌, ◌<◌, ◌≤◌, List, OnOk, IfOk};
ghost use Rattle.flow_value.specs.declared.value.Val.{Val};
ghost use Rattle.meaning.specs.Timed.{Moves, Passes};
ghost use Rattle.meaning.specs.Words.{failed, value_at};
ghost use Rattle.meaning.specs.Meaning.{definitions, with_content, arm_place};
ghost use Rattle.source_meaning.specs.Pending.{Program, load, weight, StartsFull};
ghost use Rattle.source_meaning.specs.Tasks.{Same, Exceeds, future, future_by, outcome, outcome_by, fuel, after_task, arm_task, function_task, stub_task};
ghost use Rattle.source_meaning.specs.Slots.{given_values};

use crate::loops::{begin_round, collect, end_place, end_turn, renew};
use crate::slots::Given;
use crate::state::{After, Going, State};
use crate::words::{failed, test_of};
use flow_value::{Cause, Items, NoMemory, Seq, Val, item_at};
use meaning::Test;
use std::alloc::Global;
use std::mem;
use typed_tree::{Case, Choice, Function, TypedExpr};

/// Gives the same error for each of so many results.
pub fn give_failed(
    alloc: Global,
    state: &mut State<'_>,
    results: usize,
    cause: Cause,
) -> Result<(), NoMemory>
    ensures given { OnOk result (given_values state.new.given ≡ failed results cause) }
    ensures frames { state.new.frames ≡ state.old.frames }
    ensures names { state.new.names ≡ state.old.names }
    ensures steps { state.new.steps ≡ state.old.steps }
{
    let values = failed(alloc, results, cause)?;
    state.given = Given::Many(values);
    Ok(())
}

/// Gives `error(explicit)` for each of so many results, with a step for each.
fn give_stub(
    alloc: Global,
    limit: u64,
    state: &mut State<'_>,
    results: usize,
) -> Result<Going, NoMemory>
    ensures same { IfOk result (λ g. g ≡ Going.On → Same (outcome_by (stub_task results) state.old) (outcome state.new)) }
    ensures limit { IfOk result (λ g. g ≡ Going.Limit → Exceeds limit (outcome_by (stub_task results) state.old)) }
    ensures load { state.new.frames ≡ state.old.frames }
    ensures steps { state.old.steps ≤ state.new.steps }
    ensures bound { IfOk result (λ g. state.old.steps ≤ limit → state.new.steps ≤ limit) }
{
    if !state.count(limit, results) {
        return Ok(Going::Limit);
    }
    give_failed(alloc, state, results, Cause::Explicit)?;
    Ok(Going::On)
}

/// The definitions from the first on that has an expression.
fn pending<'a>(defs: &'a [Seq<TypedExpr>]) -> &'a [Seq<TypedExpr>]
    ensures same { (n : ℕ) (p : Program) (env : List Val) → definitions n p result.now env ≡ definitions n p defs.now env }
    ensures first { StartsFull result.now }
{
    let mut left = defs;
    while let Some((def, rest)) = left.split_first() {
        if !def.is_empty() {
            return left;
        }
        left = rest;
    }
    left
}

/// Has the next definitions made, with these values as names.
fn bind<'a>(
    alloc: Global,
    state: &mut State<'a>,
    defs: &'a [Seq<TypedExpr>],
    values: Items,
) -> Result<(), NoMemory>
    ensures same { OnOk result (Same (outcome_by (after_task (After.Bind defs.entry) values) state.old) (outcome state.new)) }
    ensures steps { state.new.steps ≡ state.old.steps }
    ensures load { OnOk result (load state.new.frames.items ≤ load state.old.frames.items + 1) }
{
    if state.names.append(values).is_err() {
        return Err(NoMemory);
    }
    match pending(defs).split_first() {
        Some((def, rest)) => {
            state.list(alloc, After::Bind(rest), def.as_slice())?;
            Ok(())
        }
        None => {
            state.given = Given::Nothing;
            Ok(())
        }
    }
}

/// Goes into the body of a function.
pub fn enter<'a>(
    alloc: Global,
    program: &'a [Function],
    limit: u64,
    state: &mut State<'a>,
    number: u32,
    values: Items,
) -> Result<Going, NoMemory>
    ensures moves { IfOk result (λ g. g ≡ Going.On → Moves (outcome_by (after_task (After.Enter number) values) state.old program.now) (outcome state.new program.now)) }
    ensures limit { IfOk result (λ g. g ≡ Going.Limit → Passes limit (outcome_by (after_task (After.Enter number) values) state.old program.now)) }
    ensures fuel { IfOk result (λ g. g ≡ Going.On → fuel limit state.new < fuel limit state.old + 2) }
    ensures bound { IfOk result (λ g. state.old.steps ≤ limit → state.new.steps ≤ limit) }
{
    match item_at(program, number as usize) {
        Some(function) => {
            let going = enter_function(alloc, limit, state, function, values)?;
            Ok(going)
        }
        None => {
            state.given = Given::Nothing;
            Ok(Going::On)
        }
    }
}

fn enter_function<'a>(
    alloc: Global,
    limit: u64,
    state: &mut State<'a>,
    function: &'a Function,
    values: Items,
) -> Result<Going, NoMemory>
    ensures same { IfOk result (λ g. g ≡ Going.On → Same (outcome_by (function_task function.now values) state.old) (outcome state.new)) }
    ensures limit { IfOk result (λ g. g ≡ Going.Limit → Exceeds limit (outcome_by (function_task function.now values) state.old)) }
    ensures fuel { IfOk result (λ g. g ≡ Going.On → fuel limit state.new < fuel limit state.old + 2) }
    ensures bound { IfOk result (λ g. state.old.steps ≤ limit → state.new.steps ≤ limit) }
{
    match &function.body {
        Some(body) => {
            let saved = mem::replace(&mut state.names, values);
            state.list(alloc, After::Leave(saved), body.as_slice())?;
            Ok(Going::On)
        }
        None => {
            let going = give_stub(alloc, limit, state, function.results.len())?;
            Ok(going)
        }
    }
}

/// Takes one arm, or the error of the test.
fn choose<'a>(
    alloc: Global,
    state: &mut State<'a>,
    yes: &'a Seq<TypedExpr>,
    no: &'a Seq<TypedExpr>,
    results: usize,
    values: Items,
) -> Result<(), NoMemory>
    ensures same { OnOk result (Same (outcome_by (after_task (After.Choose yes.entry no.entry results) values) state.old) (outcome state.new)) }
    ensures steps { state.new.steps ≡ state.old.steps }
    ensures load { OnOk result (load state.new.frames.items ≤ load state.old.frames.items + 1) }
{
    match test_of(values.as_slice()) {
        Test::Yes => state.list(alloc, After::Pass, yes.as_slice()),
        Test::No => state.list(alloc, After::Pass, no.as_slice()),
        Test::Failed(cause) => give_failed(alloc, state, results, cause),
    }
}

/// The first of some values.
fn first_value(values: Items) -> Val
    ensures { result ≡ value_at values 0 }
{
    let mut left = values;
    match left.take_first() {
        Some(v) => v,
        None => Val::Err(Cause::Explicit),
    }
}

/// The place of the arm of a tag.
fn arm_place(choices: &[Choice], others: u32, tag: u32) -> u32
    ensures { result ≡ arm_place choices.now others tag }
{
    for choice in choices {
        if choice.tag == tag {
            return choice.arm;
        }
    }
    others
}

/// Takes the arm of a union's tag, or its error.
fn pick<'a>(
    alloc: Global,
    state: &mut State<'a>,
    case: &'a Case,
    arms: &'a Seq<Seq<TypedExpr>>,
    results: usize,
    values: Items,
) -> Result<(), NoMemory>
    ensures same { OnOk result (Same (outcome_by (after_task (After.Pick case.entry arms.entry results) values) state.old) (outcome state.new)) }
    ensures steps { state.new.steps ≡ state.old.steps }
    ensures load { OnOk result (load state.new.frames.items ≤ load state.old.frames.items + 1) }
{
    match first_value(values) {
        Val::Uni(tag, content) => {
            let place = arm_place(case.choices.as_slice(), case.others, tag);
            enter_arm(
                alloc,
                state,
                case,
                arms,
                results,
                place,
                content.into_inner(),
            )
        }
        Val::Err(cause) => give_failed(alloc, state, results, cause),
        _ => give_failed(alloc, state, results, Cause::Explicit),
    }
}

/// Goes into the arm at a place, with the content of the union as a name where it has one.
fn enter_arm<'a>(
    alloc: Global,
    state: &mut State<'a>,
    case: &'a Case,
    arms: &'a Seq<Seq<TypedExpr>>,
    results: usize,
    place: u32,
    content: Val,
) -> Result<(), NoMemory>
    ensures means { OnOk result (Same (future state.new) (future_by (arm_task case.now results arms.now place content) state.old)) }
    ensures steps { state.new.steps ≡ state.old.steps }
    ensures load { OnOk result (load state.new.frames.items ≤ load state.old.frames.items + 1) }
{
    let Some(arm) = item_at(arms.as_slice(), place as usize) else {
        return give_failed(alloc, state, results, Cause::Tag);
    };
    let mark = state.names.len();
    add_content(&mut state.names, case.named, place, content)?;
    state.list(alloc, After::Unbind(mark), arm.as_slice())?;
    Ok(())
}

/// Has the content of a union come into force in the arm at a place, if that is one of the first
/// so many.
fn add_content(names: &mut Items, named: u32, place: u32, content: Val) -> Result<(), NoMemory>
    ensures { OnOk result (names.new ≡ with_content named place content names.old) }
{
    if place < named {
        names.add(content)?;
    }
    Ok(())
}

/// Does what comes after the values of a list.
pub fn finish<'a>(
    alloc: Global,
    program: &'a [Function],
    limit: u64,
    state: &mut State<'a>,
    after: After<'a>,
    values: Items,
) -> Result<Going, NoMemory>
    ensures moves { IfOk result (λ g. g ≡ Going.On → Moves (outcome_by (after_task after.entry values) state.old program.now) (outcome state.new program.now)) }
    ensures limit { IfOk result (λ g. g ≡ Going.Limit → Passes limit (outcome_by (after_task after.entry values) state.old program.now)) }
    ensures fuel { IfOk result (λ g. g ≡ Going.On → fuel limit state.new < fuel limit state.old + weight after.entry) }
    ensures bound { IfOk result (λ g. state.old.steps ≤ limit → state.new.steps ≤ limit) }
{
    match after {
        After::Bind(defs) => {
            bind(alloc, state, defs, values)?;
            Ok(Going::On)
        }
        After::Unbind(mark) => {
            state.names.truncate(mark);
            state.given = Given::Many(values);
            Ok(Going::On)
        }
        After::Enter(number) => {
            let going = enter(alloc, program, limit, state, number, values)?;
            Ok(going)
        }
        After::Leave(saved) => {
            state.names = saved;
            state.given = Given::Many(values);
            Ok(Going::On)
        }
        After::Choose(yes, no, results) => {
            choose(alloc, state, yes, no, results, values)?;
            Ok(Going::On)
        }
        After::Pick(case, arms, results) => {
            pick(alloc, state, case, arms, results, values)?;
            Ok(Going::On)
        }
        After::Pass => {
            state.given = Given::Many(values);
            Ok(Going::On)
        }
        After::Next(walk) => {
            let going = end_place(alloc, limit, state, walk, values)?;
            Ok(going)
        }
        After::Start(round) => {
            begin_round(alloc, state, round)?;
            Ok(Going::On)
        }
        After::Kept(round) => {
            let going = collect(alloc, limit, state, round, values)?;
            Ok(going)
        }
        After::Tested(round) => {
            let going = end_turn(alloc, limit, state, round, values)?;
            Ok(going)
        }
        After::Renew(round) => {
            renew(alloc, state, round)?;
            Ok(Going::On)
        }
    }
}
