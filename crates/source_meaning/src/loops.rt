//! Loops.
ghost use Rattle.std.specs.Prelude.{◌≡◌, ◌+◌, ◌<◌, ◌≤◌, [], ◌∷◌, ◌++◌, OnOk, IfOk, take, drop, length, slice_get, slice_set, unwrap_or, MatchOption};
ghost use Rattle.meaning.specs.Timed.{Moves};
ghost use Rattle.source_meaning.specs.Loops.{renewal};
ghost use Rattle.source_meaning.specs.Pending.{Program, load};
ghost use Rattle.source_meaning.specs.Tasks.{Same, Exceeds, later, future, future_by, outcome, outcome_by, fuel, after_task, walk_task, span_task, places_task, turn_task, end_task};

use crate::finish::give_failed;
use crate::rows::{add_row, made, no_rows};
use crate::slots::{Given, Slot, add_values};
use crate::sources::{lower_of, names_at, places_of};
use crate::state::{After, Going, Round, State, Turned, Walk, Walked};
use crate::words::{goes_on, test_of};
use flow_value::{Items, NoMemory, Seq, Val, item_at};
use meaning::{Places, Test};
use std::alloc::Global;

/// Begins the next place of a loop, or ends the loop.
fn iterate<'a>(
    alloc: Global,
    limit: u64,
    state: &mut State<'a>,
    walked: Walk<'a>,
) -> Result<Going, NoMemory>
    ensures same { IfOk result (λ g. g ≡ Going.On → Same (outcome_by (walk_task walked.entry) state.old) (outcome state.new)) }
    ensures limit { IfOk result (λ g. g ≡ Going.Limit → Exceeds limit (outcome_by (walk_task walked.entry) state.old)) }
    ensures fuel { IfOk result (λ g. g ≡ Going.On → fuel limit state.new < fuel limit state.old + 1) }
    ensures bound { IfOk result (λ g. state.old.steps ≤ limit → state.new.steps ≤ limit) }
{
    if walked.left == 0 {
        let going = end_walk(alloc, limit, state, walked)?;
        return Ok(going);
    }
    if !state.count(limit, 1) {
        return Ok(Going::Limit);
    }
    begin_place(alloc, state, walked)?;
    Ok(Going::On)
}

/// Ends a loop over generators, with the values of its clauses.
fn end_walk<'a>(
    alloc: Global,
    limit: u64,
    state: &mut State<'a>,
    walked: Walk<'a>,
) -> Result<Going, NoMemory>
    requires { walked.left ≡ 0 }
    ensures same { IfOk result (λ g. g ≡ Going.On → Same (outcome_by (walk_task walked.entry) state.old) (outcome state.new)) }
    ensures limit { IfOk result (λ g. g ≡ Going.Limit → Exceeds limit (outcome_by (walk_task walked.entry) state.old)) }
    ensures fuel { IfOk result (λ g. g ≡ Going.On → fuel limit state.new < fuel limit state.old + 1) }
    ensures bound { IfOk result (λ g. state.old.steps ≤ limit → state.new.steps ≤ limit) }
{
    if !state.count(limit, walked.parts.form.clauses.len()) {
        return Ok(Going::Limit);
    }
    let lower = lower_of(state.names.as_slice(), walked.bounds.as_slice());
    let values = made(alloc, walked.clauses, lower)?;
    state.given = Given::Many(values);
    Ok(Going::On)
}

/// Begins a place of a loop over generators, whose step is counted.
fn begin_place<'a>(alloc: Global, state: &mut State<'a>, walked: Walk<'a>) -> Result<(), NoMemory>
    requires { 0 < walked.left }
    ensures means { OnOk result (Same (later 1 (future state.new)) (future_by (walk_task walked.entry) state.old)) }
    ensures steps { state.new.steps ≡ state.old.steps }
    ensures load { OnOk result (load state.new.frames.items ≤ load state.old.frames.items + 3) }
{
    let place = walked.count.saturating_sub(walked.left);
    let sources = walked.parts.form.sources.as_slice();
    let more = names_at(
        alloc,
        state.names.as_slice(),
        sources,
        walked.bounds.as_slice(),
        place,
    )?;
    let mark = state.names.len();
    add_values(&mut state.names, Given::Many(more))?;
    let parts = walked.parts;
    let left = walked.left - 1;
    let next = Walk {
        mark,
        left,
        ..walked
    };
    let values = parts.values.as_slice();
    state.define(alloc, After::Next(next), values, parts.defs.as_slice())?;
    Ok(())
}

/// Begins a loop over generators with these bounds, or gives the error of the bounds.
pub fn span<'a>(
    alloc: Global,
    limit: u64,
    state: &mut State<'a>,
    parts: Walked<'a>,
    bounds: Seq<Slot>,
) -> Result<Going, NoMemory>
    ensures same { IfOk result (λ g. g ≡ Going.On → Same (outcome_by (span_task parts.entry bounds) state.old) (outcome state.new)) }
    ensures limit { IfOk result (λ g. g ≡ Going.Limit → Exceeds limit (outcome_by (span_task parts.entry bounds) state.old)) }
    ensures fuel { IfOk result (λ g. g ≡ Going.On → fuel limit state.new < fuel limit state.old + 1) }
    ensures bound { IfOk result (λ g. state.old.steps ≤ limit → state.new.steps ≤ limit) }
{
    let sources = parts.form.sources.as_slice();
    if !state.count(limit, sources.len()) {
        return Ok(Going::Limit);
    }
    let places = places_of(alloc, state.names.as_slice(), sources, bounds.as_slice())?;
    let going = open(alloc, limit, state, parts, bounds, places)?;
    Ok(going)
}

/// Begins a loop over generators of so many places, or gives their error.
fn open<'a>(
    alloc: Global,
    limit: u64,
    state: &mut State<'a>,
    parts: Walked<'a>,
    bounds: Seq<Slot>,
    places: Places,
) -> Result<Going, NoMemory>
    ensures same { IfOk result (λ g. g ≡ Going.On → Same (outcome_by (places_task parts.entry bounds places) state.old) (outcome state.new)) }
    ensures limit { IfOk result (λ g. g ≡ Going.Limit → Exceeds limit (outcome_by (places_task parts.entry bounds places) state.old)) }
    ensures fuel { IfOk result (λ g. g ≡ Going.On → fuel limit state.new < fuel limit state.old + 1) }
    ensures bound { IfOk result (λ g. state.old.steps ≤ limit → state.new.steps ≤ limit) }
{
    match places {
        Places::Count(count) => {
            let going = begin_walk(alloc, limit, state, parts, bounds, count)?;
            Ok(going)
        }
        Places::Failed(cause) => {
            give_failed(alloc, state, parts.results, cause)?;
            Ok(Going::On)
        }
    }
}

/// Begins a loop over generators of so many places.
fn begin_walk<'a>(
    alloc: Global,
    limit: u64,
    state: &mut State<'a>,
    parts: Walked<'a>,
    bounds: Seq<Slot>,
    count: usize,
) -> Result<Going, NoMemory>
    ensures same { IfOk result (λ g. g ≡ Going.On → Same (outcome_by (places_task parts.entry bounds (Places.Count count)) state.old) (outcome state.new)) }
    ensures limit { IfOk result (λ g. g ≡ Going.Limit → Exceeds limit (outcome_by (places_task parts.entry bounds (Places.Count count)) state.old)) }
    ensures fuel { IfOk result (λ g. g ≡ Going.On → fuel limit state.new < fuel limit state.old + 1) }
    ensures bound { IfOk result (λ g. state.old.steps ≤ limit → state.new.steps ≤ limit) }
{
    let clauses = no_rows(alloc, parts.form.clauses.as_slice())?;
    let walk = Walk {
        parts,
        bounds,
        mark: 0,
        count,
        left: count,
        clauses,
    };
    let going = iterate(alloc, limit, state, walk)?;
    Ok(going)
}

/// Ends a place of a loop over generators, with the values of its clauses there.
pub fn end_place<'a>(
    alloc: Global,
    limit: u64,
    state: &mut State<'a>,
    walked: Walk<'a>,
    values: Items,
) -> Result<Going, NoMemory>
    ensures same { IfOk result (λ g. g ≡ Going.On → Same (outcome_by (after_task (After.Next walked.entry) values) state.old) (outcome state.new)) }
    ensures limit { IfOk result (λ g. g ≡ Going.Limit → Exceeds limit (outcome_by (after_task (After.Next walked.entry) values) state.old)) }
    ensures fuel { IfOk result (λ g. g ≡ Going.On → fuel limit state.new < fuel limit state.old + 1) }
    ensures bound { IfOk result (λ g. state.old.steps ≤ limit → state.new.steps ≤ limit) }
{
    let mut walked = walked;
    state.names.truncate(walked.mark);
    add_row(
        walked.parts.form.clauses.as_slice(),
        &mut walked.clauses,
        values,
    )?;
    let going = iterate(alloc, limit, state, walked)?;
    Ok(going)
}

/// Has the values of the clauses evaluated before a turn of a loop.
pub fn begin_round<'a>(
    alloc: Global,
    state: &mut State<'a>,
    round: Round<'a>,
) -> Result<(), NoMemory>
    ensures moves { OnOk result ((p : Program) → Moves (outcome_by (after_task (After.Start round.entry) []) state.old p) (outcome state.new p)) }
    ensures steps { state.new.steps ≡ state.old.steps }
    ensures load { OnOk result (load state.new.frames.items ≤ load state.old.frames.items + 2) }
{
    let values = round.parts.values.as_slice();
    state.list(alloc, After::Kept(round), values)?;
    Ok(())
}

/// The lesser of two numbers.
fn lesser(a: usize, b: usize) -> usize
    ensures within { result ≤ b }
    ensures first { a ≤ b → result ≡ a }
    ensures second { b < a → result ≡ b }
{
    if a <= b { a } else { b }
}

/// The greater of two numbers.
fn greater(a: usize, b: usize) -> usize
    ensures above { a ≤ result }
    ensures first { b < a → result ≡ a }
    ensures second { a ≤ b → result ≡ b }
{
    if a <= b { b } else { a }
}

/// Begins a turn of a loop.
fn go<'a>(
    alloc: Global,
    limit: u64,
    state: &mut State<'a>,
    round: Round<'a>,
) -> Result<Going, NoMemory>
    ensures same { IfOk result (λ g. g ≡ Going.On → Same (outcome_by (turn_task round.entry) state.old) (outcome state.new)) }
    ensures limit { IfOk result (λ g. g ≡ Going.Limit → Exceeds limit (outcome_by (turn_task round.entry) state.old)) }
    ensures fuel { IfOk result (λ g. g ≡ Going.On → fuel limit state.new < fuel limit state.old + 1) }
    ensures bound { IfOk result (λ g. state.old.steps ≤ limit → state.new.steps ≤ limit) }
{
    if !state.count(limit, 1) {
        return Ok(Going::Limit);
    }
    let height = state.names.len();
    let mark = lesser(round.mark, height);
    let defs = round.parts.defs.as_slice();
    let turn = Round {
        mark,
        height,
        ..round
    };
    state.define(alloc, After::Renew(turn), &[], defs)?;
    Ok(Going::On)
}

/// Goes on with a loop after the values of the clauses before a turn.
pub fn collect<'a>(
    alloc: Global,
    limit: u64,
    state: &mut State<'a>,
    round: Round<'a>,
    values: Items,
) -> Result<Going, NoMemory>
    ensures same { IfOk result (λ g. g ≡ Going.On → Same (outcome_by (after_task (After.Kept round.entry) values) state.old) (outcome state.new)) }
    ensures limit { IfOk result (λ g. g ≡ Going.Limit → Exceeds limit (outcome_by (after_task (After.Kept round.entry) values) state.old)) }
    ensures fuel { IfOk result (λ g. g ≡ Going.On → fuel limit state.new < fuel limit state.old + 2) }
    ensures bound { IfOk result (λ g. state.old.steps ≤ limit → state.new.steps ≤ limit) }
{
    let mut round = round;
    add_row(
        round.parts.form.clauses.as_slice(),
        &mut round.clauses,
        values,
    )?;
    if round.is_tested {
        let test = round.parts.test.as_slice();
        state.list(alloc, After::Tested(round), test)?;
        Ok(Going::On)
    } else {
        let going = go(alloc, limit, state, round)?;
        Ok(going)
    }
}

/// Goes on with a loop after its test.
pub fn end_turn<'a>(
    alloc: Global,
    limit: u64,
    state: &mut State<'a>,
    round: Round<'a>,
    values: Items,
) -> Result<Going, NoMemory>
    ensures same { IfOk result (λ g. g ≡ Going.On → Same (outcome_by (after_task (After.Tested round.entry) values) state.old) (outcome state.new)) }
    ensures limit { IfOk result (λ g. g ≡ Going.Limit → Exceeds limit (outcome_by (after_task (After.Tested round.entry) values) state.old)) }
    ensures fuel { IfOk result (λ g. g ≡ Going.On → fuel limit state.new < fuel limit state.old + 1) }
    ensures bound { IfOk result (λ g. state.old.steps ≤ limit → state.new.steps ≤ limit) }
{
    match goes_on(round.parts.form.is_until, test_of(values.as_slice())) {
        Test::Yes => {
            let going = go(alloc, limit, state, round)?;
            Ok(going)
        }
        Test::No => {
            let going = end_loop(alloc, limit, state, round)?;
            Ok(going)
        }
        Test::Failed(cause) => {
            state.names.truncate(round.mark);
            give_failed(alloc, state, round.parts.results, cause)?;
            Ok(Going::On)
        }
    }
}

/// Ends a `for initial`, with the values of its clauses.
fn end_loop<'a>(
    alloc: Global,
    limit: u64,
    state: &mut State<'a>,
    round: Round<'a>,
) -> Result<Going, NoMemory>
    ensures same { IfOk result (λ g. g ≡ Going.On → Same (outcome_by (end_task round.entry) state.old) (outcome state.new)) }
    ensures limit { IfOk result (λ g. g ≡ Going.Limit → Exceeds limit (outcome_by (end_task round.entry) state.old)) }
    ensures fuel { IfOk result (λ g. g ≡ Going.On → fuel limit state.new < fuel limit state.old + 1) }
    ensures bound { IfOk result (λ g. state.old.steps ≤ limit → state.new.steps ≤ limit) }
{
    state.names.truncate(round.mark);
    if !state.count(limit, round.parts.form.clauses.len()) {
        return Ok(Going::Limit);
    }
    let values = made(alloc, round.clauses, 1)?;
    state.given = Given::Many(values);
    Ok(Going::On)
}

/// Takes the last name off, where more than so many are in force.
fn last_above(names: &mut Items, height: usize) -> Option<Val>
    ensures { MatchOption
        result
        ((length names.old ≤ height) × (names.new ≡ names.old))
        (λ v. (height ≤ length names.new) × (names.old ≡ names.new ++ v ∷ [])) }
{
    if names.len() > height {
        names.pop()
    } else {
        None
    }
}

/// Gives a loop name a value, where there is one at that place.
fn put(names: &mut Items, mark: usize, height: usize, place: usize, v: Val)
    requires within { mark ≤ height }
    requires there { height ≤ length names.old }
    ensures { names.new ≡ take mark names.old ++ (slice_set (drop mark (take height names.old)) place v ++ drop height names.old) }
{
    if place < height - mark {
        names.set(mark + place, v);
    }
}

/// The place among the loop names of the one that a name of the turn renews, by the place of that
/// name.
fn loop_name(renewed: &[Option<u32>], place: usize) -> Option<u32>
    ensures { result ≡ unwrap_or (slice_get renewed.now place) None }
{
    match item_at(renewed, place) {
        Some(name) => *name,
        None => None,
    }
}

/// Gives the loop name that the last name of the turn renews its value, where there is one.
fn renew_last(names: &mut Items, mark: usize, height: usize, renewed: &[Option<u32>], v: Val)
    requires within { mark ≤ height }
    requires there { height ≤ length names.old }
    ensures same { renewal renewed.now mark height names.new ≡ renewal renewed.now mark height (names.old ++ v ∷ []) }
    ensures length { length names.new ≡ length names.old }
{
    if let Some(place) = loop_name(renewed, names.len() - height) {
        put(names, mark, height, place as usize, v);
    }
}

/// Gives the loop names the values of the names of the turn that renew them, and takes those off.
fn renew_names(names: &mut Items, mark: usize, height: usize, renewed: &[Option<u32>])
    requires { mark ≤ height }
    ensures { names.new ≡ renewal renewed.now mark height names.old }
{
    while let Some(v) = last_above(names, height) {
        renew_last(names, mark, height, renewed, v);
    }
}

/// Begins the next round of a loop after its turn.
pub fn renew<'a>(alloc: Global, state: &mut State<'a>, round: Round<'a>) -> Result<(), NoMemory>
    ensures moves { OnOk result ((p : Program) → Moves (outcome_by (after_task (After.Renew round.entry) []) state.old p) (outcome state.new p)) }
    ensures steps { state.new.steps ≡ state.old.steps }
    ensures load { OnOk result (load state.new.frames.items ≤ load state.old.frames.items + 2) }
{
    let height = greater(round.mark, round.height);
    let renewed = round.parts.form.renewed.as_slice();
    renew_names(&mut state.names, round.mark, height, renewed);
    let next = Round {
        is_tested: true,
        ..round
    };
    begin_round(alloc, state, next)?;
    Ok(())
}
