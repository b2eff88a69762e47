//! The items of a run, told by the steps that do them: a node, the entry of a call, of a compound node or
//! of a part, a turn, a leaving, and a slice of a ForAll that stands in no other slice. A step does one of
//! them, but the entry of a compound node goes from its count up to its copies, or to its tag, a slice over
//! all its iterations, and some steps stand between items.
ghost use Rattle.std.specs.Prelude.{◌-◌, ◌+◌, ◌≤◌, length};
ghost use Rattle.step_code.specs.Reading.{listed};
ghost use Rattle.sequential.specs.Loading.{AreInside};
ghost use Rattle.sequential_run.specs.Ready.{IsReady};
ghost use Rattle.sequential_run.specs.Whole.{CanStep};

use crate::stepping::step_here;
use crate::went::Went;
use forall_slicer::begins_at;
use run_gate::Gate;
use sequential::{Machine, operands_from};
use sequential_loops::first_places;
use step_code::{Code, Step};

/// The worker that does the run.
const WORKER: u32 = 0;

/// What is open between two steps.
#[derive(Clone, Copy)]
pub enum Open {
    /// No item.
    Nothing,
    /// The entry of a compound node, which was counted.
    Entry,
    /// No item, but a loop is before its first turn.
    Loop,
    /// A ForAll that is cut into slices.
    Slices(Slices),
}

/// A ForAll that is cut into slices.
#[derive(Clone, Copy)]
pub struct Slices {
    /// The step that begins its iterations.
    each: usize,
    /// The first cell of its block.
    base: usize,
    /// How many iterations were begun.
    begun: u64,
}

/// What is called behind a step that goes on.
#[derive(Clone, Copy)]
pub enum Behind {
    /// Nothing.
    Nothing,
    /// The item is done.
    Ends,
    /// Only now it is known which item was done.
    Chosen,
    /// An entry is done, and if the machine goes on at this place, a leaving too.
    Tagged(usize),
    /// If the machine goes on at this place, slices begin, else a leaving is done.
    Spread(usize),
}

/// Calls the gate for what begins with the step at which the machine stands.
#[inline(always)]
pub fn reached<G: Gate>(
    gate: &G,
    open: &mut Open,
    machine: &Machine,
    code: &Code,
    limit: u64,
) -> Behind
    requires { CanStep code.now machine.now }
{
    if G::CALLED {
        reach(gate, open, machine, code, limit)
    } else {
        Behind::Nothing
    }
}

/// Calls the gate for what ends with the step that was done.
#[inline(always)]
pub fn passed<G: Gate>(gate: &G, open: &mut Open, machine: &Machine, behind: Behind, went: Went) {
    if G::CALLED {
        pass(gate, open, machine, behind, went);
    }
}

#[inline(never)]
fn reach<G: Gate>(gate: &G, open: &mut Open, machine: &Machine, code: &Code, limit: u64) -> Behind
    requires { CanStep code.now machine.now }
{
    let this = step_here(code, machine.pc);
    match *open {
        Open::Nothing => begins(gate, open, machine, this, limit),
        Open::Entry => goes_on(gate, open, machine, this, limit),
        Open::Loop => {
            *open = Open::Nothing;
            counts(gate, machine, limit)
        }
        Open::Slices(slices) => {
            if machine.pc == slices.each && machine.base == slices.base {
                iterates(gate, open, slices, machine, code, this)
            } else {
                Behind::Nothing
            }
        }
    }
}

/// An item begins that is done with this step.
fn begun<G: Gate>(gate: &G) -> Behind {
    gate.before(WORKER);
    Behind::Ends
}

/// The same of one that counts: beyond the limit it does not begin.
fn counts<G: Gate>(gate: &G, machine: &Machine, limit: u64) -> Behind {
    if machine.fires < limit {
        begun(gate)
    } else {
        Behind::Nothing
    }
}

/// What begins where no item is open.
fn begins<G: Gate>(
    gate: &G,
    open: &mut Open,
    machine: &Machine,
    this: &Step,
    limit: u64,
) -> Behind {
    match this {
        Step::Count => {
            if machine.fires < limit {
                gate.before(WORKER);
                *open = Open::Entry;
            }
            Behind::Nothing
        }
        Step::Branch { .. } | Step::Move { .. } | Step::Bring { .. } => begun(gate),
        Step::Test { .. } => Behind::Chosen,
        // the entry of the run is no call
        Step::Return { .. } if machine.calls.is_empty() => Behind::Nothing,
        Step::Return { .. } => begun(gate),
        Step::Keep { .. } | Step::Carry { .. } | Step::Spread { .. } | Step::Each { .. } => {
            begins_loop(gate, open, machine, this)
        }
        Step::Add { .. } | Step::Push { .. } | Step::Tag { .. } => Behind::Nothing,
        // a simple node, or the entry of a call
        _ => counts(gate, machine, limit),
    }
}

/// The same of steps of loops.
fn begins_loop<G: Gate>(gate: &G, open: &mut Open, machine: &Machine, this: &Step) -> Behind {
    match this {
        // a loop whose body comes first counts its first turn directly behind its first values
        Step::Keep { begins, next, .. } | Step::Carry { begins, next, .. }
            if *begins && *next as usize == machine.pc.saturating_add(1) => {
            *open = Open::Loop;
            Behind::Nothing
        }
        Step::Keep { .. } | Step::Carry { .. } => begun(gate),
        Step::Spread { turns, .. } => Behind::Spread(*turns as usize),
        _ => Behind::Nothing,
    }
}

/// The entry of a compound node goes on with its copies and its tag, or is done.
fn goes_on<G: Gate>(
    gate: &G,
    open: &mut Open,
    machine: &Machine,
    this: &Step,
    limit: u64,
) -> Behind {
    match this {
        Step::Move { .. } | Step::Bring { .. } => Behind::Nothing,
        Step::Tag { next, .. } => {
            *open = Open::Nothing;
            Behind::Tagged(*next as usize)
        }
        _ => {
            gate.after(WORKER);
            *open = Open::Nothing;
            begins(gate, open, machine, this, limit)
        }
    }
}

/// An iteration of a ForAll that is cut into slices, or its returns.
fn iterates<G: Gate>(
    gate: &G,
    open: &mut Open,
    slices: Slices,
    machine: &Machine,
    code: &Code,
    this: &Step,
) -> Behind
    requires ready { IsReady code.now (length machine.now.cells.items - machine.now.base) this.now }
{
    match this {
        Step::Each {
            multiples,
            many,
            ..
        } => {
            let places = each_places(machine, code, *multiples, *many);
            turns(gate, open, slices, places)
        }
        _ => Behind::Nothing,
    }
}

/// How many places the first of these multiples has.
fn each_places(machine: &Machine, code: &Code, multiples: u32, many: u32) -> u64
    requires listed { multiples + many ≤ length code.now.operands }
    requires inside { AreInside code.now (length machine.now.cells.items - machine.now.base) (listed code.now multiples many) }
{
    let operands = operands_from(code, multiples, many);
    first_places(code, machine.cells.as_slice(), machine.base, operands) as u64
}

/// The next of so many iterations, or the returns behind the last one.
fn turns<G: Gate>(gate: &G, open: &mut Open, slices: Slices, places: u64) -> Behind {
    if slices.begun > 0 && (slices.begun >= places || begins_at(places, 1, slices.begun)) {
        gate.after(WORKER);
    }
    if slices.begun >= places {
        *open = Open::Nothing;
        return begun(gate);
    }
    if begins_at(places, 1, slices.begun) {
        gate.before(WORKER);
    }
    *open = Open::Slices(Slices {
        begun: slices.begun.saturating_add(1),
        ..slices
    });
    Behind::Nothing
}

#[inline(never)]
fn pass<G: Gate>(gate: &G, open: &mut Open, machine: &Machine, behind: Behind, went: Went) {
    match (went, *open) {
        (Went::Goes | Went::Writes, _) => ends(gate, open, machine, behind),
        (Went::Over, Open::Slices(_)) => gate.after(WORKER),
        _ => {}
    }
}

/// What ends with a step that has gone on.
fn ends<G: Gate>(gate: &G, open: &mut Open, machine: &Machine, behind: Behind) {
    match behind {
        Behind::Nothing => {}
        Behind::Ends => gate.after(WORKER),
        Behind::Chosen => whole(gate),
        Behind::Tagged(next) => {
            gate.after(WORKER);
            if machine.pc == next {
                whole(gate);
            }
        }
        Behind::Spread(turns) => {
            if machine.pc == turns {
                *open = Open::Slices(Slices {
                    each: turns,
                    base: machine.base,
                    begun: 0,
                });
            } else {
                whole(gate);
            }
        }
    }
}

/// An item that has been done.
fn whole<G: Gate>(gate: &G) {
    gate.before(WORKER);
    gate.after(WORKER);
}
