//! Workers that step at the same time.
ghost use Rattle.std.specs.Prelude.{◌≡◌, ℕ, ◌+◌, ◌-◌, ◌<◌, List, IfOk};
ghost use Rattle.fire_lock.specs.Passes.{Of, Same};
ghost use Rattle.fire_lock.specs.History.{Reached};
ghost use Rattle.fire_lock.specs.declared.entry.Entry.{Entry};
ghost use denote.Param.Send.{IsSync};

use crate::tally::Tally;
use fire_lock::{FireLock, Machine, Pass};
use std::alloc::Global;
use std::sync::Wait;
use std::thread::{Threads, join_mut};

fn work<R: Wait>(rt: &R, lock: &FireLock<Tally>, pass: &mut Pass<Tally>, steps: u64)
    requires lock { Of lock.now pass.old }
    ensures same { Same pass.old pass.new }
{
    for i in 0..steps {
        let _sum = lock.step(rt, pass, i);
    }
}

fn team<R: Threads + Wait + Sync>(
    rt: &R,
    lock: &FireLock<Tally>,
    pass: &mut Pass<Tally>,
    workers: u32,
    steps: u64,
)
    requires lock { Of lock.now pass.old }
    requires workers { pass.old.from + workers ≡ pass.old.until }
    ensures same { Same pass.old pass.new }
{
    if workers <= 1 {
        work(rt, lock, pass, steps);
        return;
    }
    let mut other = lock.split(pass);
    join_mut(
        rt,
        &mut || -> ()
            requires { IsSync R.row × (1 < workers) × Of lock.now pass.now × (pass.now.from + (workers - 1) ≡ pass.now.until) }
            ensures { Same pass.entry.now pass.exit.now }
        { team(rt, lock, pass, workers - 1, steps) },
        &mut || -> ()
            requires { IsSync R.row × Of lock.now other }
            ensures { Same other.entry other.exit }
        { work(rt, lock, &mut other, steps) },
    );
    lock.join(pass, other);
}

/// Lets each of the workers step so many times. The machine at the end is one that a history leads to.
pub fn run<R: Threads + Wait + Sync>(
    rt: &R,
    alloc: Global,
    workers: u32,
    steps: u64,
) -> Result<Tally, Tally>
    requires some { 0 < workers }
    ensures reached { IfOk result (λ m. (log : List (Entry ℕ ℕ)) × Reached ⟦<Tally as Machine>⟧.plays (record { sum = 0 }) log m) }
{
    let (lock, mut pass) = FireLock::new(alloc, Tally { sum: 0 }, workers)?;
    team(rt, &lock, &mut pass, workers, steps);
    Ok(lock.close(pass))
}
