//! The evaluator. All pending work stands in its frames, on the heap.
ghost use Rattle.std.specs.Prelude.{◌≡◌, ◌+◌, ◌<◌, ◌≤◌, [], OnOk, IfOk};
ghost use Rattle.meaning.specs.Timed.{Moves, Passes};
ghost use Rattle.source_meaning.specs.Slots.{given_values};
ghost use Rattle.source_meaning.specs.Pending.{frame_weight, load};
ghost use Rattle.source_meaning.specs.Tasks.{Same, Exceeds, later, future, future_by, outcome, outcome_by, answer, fuel, frame_task, part_task, work_task};

use crate::begin::begin;
use crate::finish::finish;
use crate::loops::span;
use crate::slots::{Given, Slot, add_slots, add_values, operate};
use crate::state::{Frame, Going, Listing, Operating, State, Work};
use flow_value::{NoMemory, Seq};
use std::alloc::Global;
use std::mem;
use typed_tree::{Function, TypedExpr, TypedKind};

/// Puts a frame back, and begins its next part, whose step is counted.
fn part<'a>(
    alloc: Global,
    state: &mut State<'a>,
    frame: Frame<'a>,
    e: &'a TypedExpr,
) -> Result<(), NoMemory>
    ensures means { OnOk result (Same (later 1 (future state.new)) (future_by (part_task frame.entry e.now) state.old)) }
    ensures steps { state.new.steps ≡ state.old.steps }
    ensures load { OnOk result (load state.new.frames.items ≤ load state.old.frames.items + frame_weight frame.entry + 5) }
{
    if state.frames.push(frame).is_err() {
        return Err(NoMemory);
    }
    begin(alloc, state, e)
}

/// Goes on with a list of expressions.
fn advance_listing<'a>(
    alloc: Global,
    program: &'a [Function],
    limit: u64,
    state: &mut State<'a>,
    listing: Listing<'a>,
) -> Result<Going, NoMemory>
    ensures moves { IfOk result (λ g. g ≡ Going.On → Moves (outcome_by (frame_task (Frame.Listing listing.entry) state.old.given) state.old program.now) (outcome state.new program.now)) }
    ensures limit { IfOk result (λ g. g ≡ Going.Limit → Passes limit (outcome_by (frame_task (Frame.Listing listing.entry) state.old.given) state.old program.now)) }
    ensures fuel { IfOk result (λ g. g ≡ Going.On → fuel limit state.new < fuel limit state.old + frame_weight (Frame.Listing listing.entry)) }
    ensures bound { IfOk result (λ g. state.old.steps ≤ limit → state.new.steps ≤ limit) }
{
    let Listing {
        after,
        left,
        mut done,
    } = listing;
    let values = mem::replace(&mut state.given, Given::Nothing);
    add_values(&mut done, values)?;
    match left.split_first() {
        Some((e, left)) => {
            if !state.count(limit, 1) {
                return Ok(Going::Limit);
            }
            let frame = Frame::Listing(Listing { after, left, done });
            part(alloc, state, frame, e)?;
            Ok(Going::On)
        }
        None => {
            let going = finish(alloc, program, limit, state, after, done)?;
            Ok(going)
        }
    }
}

/// Puts operands back with one more, whose step is counted: a name is lent, and else the part is
/// begun.
fn operand<'a>(
    alloc: Global,
    state: &mut State<'a>,
    operating: Operating<'a>,
    e: &'a TypedExpr,
) -> Result<(), NoMemory>
    requires { given_values state.old.given ≡ [] }
    ensures means { OnOk result (Same (later 1 (future state.new)) (future_by (part_task (Frame.Operating operating.entry) e.now) state.old)) }
    ensures steps { state.new.steps ≡ state.old.steps }
    ensures load { OnOk result (load state.new.frames.items ≤ load state.old.frames.items + 6) }
{
    match &e.kind {
        TypedKind::Value(level) => {
            let mut operating = operating;
            operating.slots.add(Slot::Name(*level))?;
            match state.frames.push(Frame::Operating(operating)) {
                Ok(()) => Ok(()),
                Err(_) => Err(NoMemory),
            }
        }
        _ => part(alloc, state, Frame::Operating(operating), e),
    }
}

/// Does what operands are for.
fn work<'a>(
    alloc: Global,
    limit: u64,
    state: &mut State<'a>,
    work: Work<'a>,
    slots: Seq<Slot>,
) -> Result<Going, NoMemory>
    ensures same { IfOk result (λ g. g ≡ Going.On → Same (outcome_by (work_task work.entry slots) state.old) (outcome state.new)) }
    ensures limit { IfOk result (λ g. g ≡ Going.Limit → Exceeds limit (outcome_by (work_task work.entry slots) state.old)) }
    ensures fuel { IfOk result (λ g. g ≡ Going.On → fuel limit state.new < fuel limit state.old + 1) }
    ensures bound { IfOk result (λ g. state.old.steps ≤ limit → state.new.steps ≤ limit) }
{
    match work {
        Work::Apply(op) => {
            let v = operate(alloc, op, state.names.as_slice(), slots)?;
            state.given = Given::One(v);
            Ok(Going::On)
        }
        Work::Span(parts) => {
            let going = span(alloc, limit, state, parts, slots)?;
            Ok(going)
        }
    }
}

/// Goes on with operands.
fn advance_operating<'a>(
    alloc: Global,
    limit: u64,
    state: &mut State<'a>,
    operating: Operating<'a>,
) -> Result<Going, NoMemory>
    ensures same { IfOk result (λ g. g ≡ Going.On → Same (outcome_by (frame_task (Frame.Operating operating.entry) state.old.given) state.old) (outcome state.new)) }
    ensures limit { IfOk result (λ g. g ≡ Going.Limit → Exceeds limit (outcome_by (frame_task (Frame.Operating operating.entry) state.old.given) state.old)) }
    ensures fuel { IfOk result (λ g. g ≡ Going.On → fuel limit state.new < fuel limit state.old + 1) }
    ensures bound { IfOk result (λ g. state.old.steps ≤ limit → state.new.steps ≤ limit) }
{
    let Operating {
        work: purpose,
        left,
        mut slots,
    } = operating;
    let values = mem::replace(&mut state.given, Given::Nothing);
    add_slots(&mut slots, values)?;
    match left.split_first() {
        Some((e, left)) => {
            if !state.count(limit, 1) {
                return Ok(Going::Limit);
            }
            let next = Operating {
                work: purpose,
                left,
                slots,
            };
            operand(alloc, state, next, e)?;
            Ok(Going::On)
        }
        None => {
            let going = work(alloc, limit, state, purpose, slots)?;
            Ok(going)
        }
    }
}

/// Goes on with the frame that was the last.
fn advance<'a>(
    alloc: Global,
    program: &'a [Function],
    limit: u64,
    state: &mut State<'a>,
    frame: Frame<'a>,
) -> Result<Going, NoMemory>
    ensures moves { IfOk result (λ g. g ≡ Going.On → Moves (outcome_by (frame_task frame.entry state.old.given) state.old program.now) (outcome state.new program.now)) }
    ensures limit { IfOk result (λ g. g ≡ Going.Limit → Passes limit (outcome_by (frame_task frame.entry state.old.given) state.old program.now)) }
    ensures fuel { IfOk result (λ g. g ≡ Going.On → fuel limit state.new < fuel limit state.old + frame_weight frame.entry) }
    ensures bound { IfOk result (λ g. state.old.steps ≤ limit → state.new.steps ≤ limit) }
{
    match frame {
        Frame::Listing(listing) => {
            let going = advance_listing(alloc, program, limit, state, listing)?;
            Ok(going)
        }
        Frame::Operating(operating) => {
            let going = advance_operating(alloc, limit, state, operating)?;
            Ok(going)
        }
    }
}

/// Goes on until no work is left, or the limit is reached.
pub fn run<'a>(
    alloc: Global,
    program: &'a [Function],
    limit: u64,
    state: &mut State<'a>,
) -> Result<Going, NoMemory>
    ensures moves { IfOk result (λ g. g ≡ Going.On → Moves (outcome state.old program.now) (answer state.new)) }
    ensures limit { IfOk result (λ g. g ≡ Going.Limit → Passes limit (outcome state.old program.now)) }
    ensures bound { IfOk result (λ g. state.old.steps ≤ limit → state.new.steps ≤ limit) }
{
    while let Some(frame) = state.frames.pop() {
        match advance(alloc, program, limit, state, frame)? {
            Going::On => {}
            Going::Limit => return Ok(Going::Limit),
        }
    }
    Ok(Going::On)
}
