//! Desks that hand out items, behind a lock that one, two and four passes step.
ghost use Rattle.std.specs.Prelude.{◌≡◌, ℕ, ◌+◌, ◌-◌, ◌%◌, ◌^◌, ◌<◌, ◌≤◌, List, IfOk, IfErr};
ghost use Rattle.fire_lock.specs.Passes.{Of, Same};
ghost use Rattle.fire_lock.specs.History.{Reached};
ghost use Rattle.fire_lock.specs.declared.entry.Entry.{Entry};
ghost use Rattle.test_pool.specs.declared.fire_lock_tests.Event.{Event};
ghost use Rattle.test_pool.specs.declared.fire_lock_tests.Reply.{Reply};
ghost use denote.Param.Send.{IsSync};

use fire_lock::{FireLock, Machine, Pass};
use std::alloc::Global;
use std::hint::spin_loop;
use std::sync::Wait;
use std::test::Fail;
use std::thread::{Threads, join_mut};

#[derive(Drop)]
enum Event {
    Claim,
    Finish(u64),
}

#[derive(Drop)]
enum Reply {
    Item(u64),
    Idle,
    Noted,
    Ended,
}

// Hands out the items below `total`, no more than `most` at once, and adds up those that are finished. Item i is for the
// numbers that are i modulo `shares`.
#[derive(Drop)]
struct Desk {
    next: u64,
    total: u64,
    out: u64,
    most: u64,
    shares: u64,
    sum: u64,
    // The length of the history.
    plays: u64,
}

impl Desk {
    fn new(total: u64, most: u64, shares: u64) -> Desk
        ensures { result.plays ≡ 0 }
    {
        Desk {
            next: 0,
            total,
            out: 0,
            most,
            shares,
            sum: 0,
            plays: 0,
        }
    }

    fn is_for(&self, number: u32) -> bool {
        self.shares != 0 && self.next % self.shares == number as u64 % self.shares
    }

    fn claim(&mut self, number: u32) -> Reply
        ensures { self.new.plays ≡ self.old.plays }
    {
        let item = self.next;
        if item == self.total && self.out == 0 {
            Reply::Ended
        } else if item < self.total && self.out < self.most && self.is_for(number) {
            self.next = item + 1;
            self.out += 1;
            Reply::Item(item)
        } else {
            Reply::Idle
        }
    }
}

impl Machine for Desk {
    type Event = Event;

    type Reply = Reply;

    ghost starts = { λ m. m.plays ≡ 0 };

    ghost plays = { λ m number event reply m'. m'.plays ≡ (m.plays + 1) % 2 ^ 64 };

    ghost can = { λ m number event. Unit {0} };

    ghost fits = { λ own event. Unit {0} };

    ghost may = { λ s log m n e _ _ _. tt };

    fn play(&mut self, number: u32, event: Event) -> Reply {
        self.plays = self.plays.wrapping_add(1);
        match event {
            Event::Claim => self.claim(number),
            Event::Finish(item) => {
                self.out = self.out.saturating_sub(1);
                self.sum = self.sum.wrapping_add(item);
                Reply::Noted
            }
        }
    }

    fn news(reply: &Reply) -> bool {
        matches!(reply, Reply::Noted)
    }
}

fn work<R: Wait>(rt: &R, lock: &FireLock<Desk>, pass: &mut Pass<Desk>, rounds: u64)
    requires lock { Of lock.now pass.old }
    ensures same { Same pass.old pass.new }
{
    for _ in rt.forever() {
        match lock.step(rt, pass, Event::Claim) {
            Reply::Item(item) => {
                for _ in 0..rounds {
                    spin_loop();
                }
                let _noted = lock.step(rt, pass, Event::Finish(item));
            }
            Reply::Ended => return,
            _ => lock.idle(rt, pass),
        }
    }
    unreachable!()
}

fn team<R: Threads + Wait + Sync>(
    rt: &R,
    lock: &FireLock<Desk>,
    pass: &mut Pass<Desk>,
    count: u32,
    rounds: u64,
)
    requires lock { Of lock.now pass.old }
    requires count { pass.old.from + count ≡ pass.old.until }
    ensures same { Same pass.old pass.new }
{
    if count <= 1 {
        work(rt, lock, pass, rounds);
        return;
    }
    let mut other = lock.split(pass);
    join_mut(
        rt,
        &mut || -> ()
            requires { IsSync R.row × (1 < count) × Of lock.now pass.now × (pass.now.from + (count - 1) ≡ pass.now.until) }
            ensures { Same pass.entry.now pass.exit.now }
        { team(rt, lock, pass, count - 1, rounds) },
        &mut || -> ()
            requires { IsSync R.row × Of lock.now other }
            ensures { Same other.entry other.exit }
        { work(rt, lock, &mut other, rounds) },
    );
    lock.join(pass, other);
}

// The machine that comes back is one that a history leads to from the one handed in.
fn run<R: Threads + Wait + Sync>(
    rt: &R,
    alloc: Global,
    desk: Desk,
    count: u32,
    rounds: u64,
) -> Result<Desk, Desk>
    requires starts { desk.plays ≡ 0 }
    requires some { 0 < count }
    ensures reached { IfOk result (λ m. (log : List (Entry Event Reply)) × Reached ⟦<Desk as Machine>⟧.plays desk log m) }
    ensures back { IfErr result (λ m. m ≡ desk) }
{
    let (lock, mut pass) = FireLock::new(alloc, desk, count)?;
    team(rt, &lock, &mut pass, count, rounds);
    Ok(lock.close(pass))
}

#[test]
fn each_item_is_finished_once_by_one_two_and_four_passes(rt: HostRuntime) -> Result<(), Fail> {
    for count in [1, 2, 4] {
        let Ok(end) = run(&rt, rt.alloc(), Desk::new(1000, 1000, 1), count, 0) else {
            panic!(rt; "no memory")
        };
        assert_eq!(rt;
            (end.next, end.out, end.sum),
            (1000, 0, 499_500),
            "by {count}"
        );
        assert!(rt; end.plays >= 2000 + count as u64, "by {count}");
    }
    Ok(())
}

// Three workers have nothing to do while one works. Each piece of news wakes them for one claim, and no more.
#[test]
fn idle_workers_leave_the_history_short(rt: HostRuntime) -> Result<(), Fail> {
    let Ok(end) = run(&rt, rt.alloc(), Desk::new(5, 1, 1), 4, 1_000_000) else {
        panic!(rt; "no memory")
    };
    assert_eq!(rt; (end.next, end.sum), (5, 10));
    assert!(rt; end.plays <= 100, "{} entries", end.plays);
    Ok(())
}

// Each item is for the next pass alone, which sleeps or is about to: a wake that is lost would end the run.
#[test]
fn no_wake_is_lost(rt: HostRuntime) -> Result<(), Fail> {
    let Ok(end) = run(&rt, rt.alloc(), Desk::new(2000, 1, 4), 4, 0) else {
        panic!(rt; "no memory")
    };
    assert_eq!(rt; (end.next, end.sum), (2000, 1_999_000));
    Ok(())
}
