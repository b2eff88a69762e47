//! The lock.
ghost use Rattle.std.specs.Prelude.{◌≡◌, ℕ, ◌+◌, ◌-◌, ◌<◌, ◌≤◌, [], ◌∷◌, ◌++◌, None, Some, IfOk, IfErr};
ghost use Rattle.fire_lock.specs.History.{own, Reached, entry};
ghost use Rattle.fire_lock.specs.Passes.{Of, whole, without_greatest, greatest, Joined, Stepped};
ghost use Rattle.fire_lock.specs.Rules.{Rests, Turn};
ghost use Rattle.fire_lock.specs.declared.view.Place.{Place};
ghost use Rattle.fire_lock.specs.declared.view.Played.{Played};

use crate::machine::Machine;
use crate::pass::Pass;
use crate::plays::{Count, Cut, Enter, Glue, Law, Settle, Take};
use crate::view::{Known, Origin, Place, Played, Seat, Slot};
use atomic_table::{Refused, Table};
use std::alloc::{AllocFailed, Global};
use std::hint::spin_loop;
use std::marker::Model;
use std::snapshot::Snapshot;
use std::sync::Wait;

// The words of the table. The first is odd while a pass has its turn, and each step raises it by two.
const TURN: usize = 0;

// How many passes may sleep until the turn is free.
const WAITING: usize = 1;

// How many steps were news to idle passes.
const NEWS: usize = 2;

// How many passes are idle.
const IDLE: usize = 3;

// How many of these may sleep until there is news.
const ASLEEP: usize = 4;

// How often a word is looked at before a sleep.
const PEEKS: u32 = 200;

/// A lock round a machine, which those that hold its passes play events on.
pub struct FireLock<M: Machine> {
    table: Table<Slot<M>, Known<M>, Origin<M>, Law<M>, Global>,
}

impl<M: Machine> Model for FireLock<M> {
    ghost use Rattle.std.specs.Prelude.{◌≡◌};
    ghost use Rattle.fire_lock.specs.Passes.{LockView};

    ghost Value = { LockView M };

    ghost view = { λ l. record { id = l.table.shared.table_id; passes = l.table.shared.key.passes; start = l.table.shared.key.machine.value } };

    ghost invariant = { λ l. (l.table.shared.table_id.words ≡ 5) × (l.table.shared.table_id.slots ≡ 1) };
}

// The half of a word that a sleeper waits on.
fn low(word: u64) -> u32 {
    (word & 0xffff_ffff) as u32
}

fn lone_slot<M: Machine>(alloc: Global, machine: M) -> Result<Vec<Slot<M>>, M>
    ensures slot { IfOk result (λ v. v.items ≡ record { machine = machine; played = None } ∷ []) }
    ensures back { IfErr result (λ m. m ≡ machine) }
{
    let mut slots = Vec::new(alloc);
    let place = Place {
        machine,
        played: None,
    };
    match slots.push(place) {
        Ok(()) => Ok(slots),
        Err(AllocFailed { value }) => {
            slots.destroy_empty();
            let Place { machine, played: _ } = value;
            Err(machine)
        }
    }
}

fn machine_of<M: Machine>(mut slots: Vec<Slot<M>>) -> M
    requires one { (p : Place M M.Event M.Reply) × (slots.items ≡ p ∷ []) }
    ensures machine { (p : Place M M.Event M.Reply) → slots.items ≡ p ∷ [] → result ≡ p.machine }
{
    let found = slots.pop();
    let Some(Place { machine, played: _ }) = found else {
        unreachable!()
    };
    slots.destroy_empty();
    machine
}

impl<M: Machine> FireLock<M> {
    /// A lock round `machine`, on which nothing was played yet, and its one pass, with the numbers from 0 up to and
    /// without `passes`. Want of memory hands the machine back.
    pub fn new(alloc: Global, machine: M, passes: u32) -> Result<(FireLock<M>, Pass<M>), M>
        requires starts { M.starts machine }
        requires some { 0 < passes }
        ensures lock { IfOk result (λ t. (t.0.passes ≡ passes) × (t.0.start ≡ machine)) }
        ensures pass { IfOk result (λ t. t.1 ≡ whole t.0) }
        ensures back { IfErr result (λ m. m ≡ machine) }
    {
        let origin = Origin {
            passes,
            machine: Snapshot::of(&machine),
        };
        let slots = lone_slot(alloc, machine)?;
        match Table::new(alloc, &[0, 0, 0, 0, 0], slots, &origin) {
            Ok((table, seat)) => Ok((
                FireLock { table },
                Pass {
                    seat,
                    number: 0,
                    until: passes,
                    turn: 0,
                },
            )),
            Err(Refused { slots }) => Err(machine_of(slots)),
        }
    }

    /// Takes the greatest number out of the pass, as a pass of its own that has seen the same. It takes no memory.
    pub fn split(&self, pass: &mut Pass<M>) -> Pass<M>
        requires lock { Of self.now pass.old }
        requires two { pass.old.from + 2 ≤ pass.old.until }
        ensures kept { pass.new ≡ without_greatest pass.old }
        ensures given { result ≡ greatest pass.old }
    {
        let seat = self.table.shared.split_seat::<Cut>(&mut pass.seat);
        let until = pass.until;
        pass.until = until - 1;
        Pass {
            seat,
            number: until - 1,
            until,
            turn: pass.turn,
        }
    }

    /// Gives the pass the numbers of `other`, which go on where its own end, and the longer of what the two have seen.
    /// It takes no memory.
    pub fn join(&self, pass: &mut Pass<M>, other: Pass<M>)
        requires lock { Of self.now pass.old × Of self.now other }
        requires next { other.from ≡ pass.old.until }
        ensures joined { Joined pass.old other pass.new }
    {
        let Pass {
            seat,
            number: _,
            until,
            turn: _,
        } = other;
        self.table.shared.join_seat::<Glue>(&mut pass.seat, seat);
        self.table.shared.load::<Settle>(&mut pass.seat, TURN);
        pass.until = until;
    }

    /// Plays the event once the lock is free, and enters it into the history. It may wait, and takes no memory but
    /// what the machine takes.
    pub fn step<R: Wait>(&self, rt: &R, pass: &mut Pass<M>, event: M::Event) -> M::Reply
        requires lock { Of self.now pass.old }
        requires fits { M.fits (own pass.old.from (pass.old.from + 1) pass.old.seen) event }
        ensures step { Stepped M.starts M.plays self.now.start pass.old event result pass.new }
        ensures mine { own pass.old.from pass.old.until pass.new.seen ≡ own pass.old.from pass.old.until pass.old.seen ++ entry pass.old.from event result ∷ [] }
        ensures least { own pass.old.from (pass.old.from + 1) pass.new.seen ≡ own pass.old.from (pass.old.from + 1) pass.old.seen ++ entry pass.old.from event result ∷ [] }
    {
        let before = self.take_turn(rt, &mut pass.seat, pass.turn);
        pass.turn = before.wrapping_add(2);
        let reply = self.play(&mut pass.seat, pass.number, event);
        self.announce(&mut pass.seat, &reply);
        reply
    }

    /// Waits until a step that entered after the pass's last one is news, and may return sooner.
    pub fn idle<R: Wait>(&self, rt: &R, pass: &mut Pass<M>)
        requires lock { Of self.now pass.old }
        ensures same { pass.new ≡ pass.old }
    {
        let shared = &self.table.shared;
        shared.fetch_add::<Count>(&mut pass.seat, IDLE, 1);
        self.await_news(rt, &mut pass.seat, pass.turn);
        shared.fetch_sub::<Count>(&mut pass.seat, IDLE, 1);
    }

    /// Ends the lock and hands the machine out. The pass has all numbers, and so has seen the whole history. It takes
    /// no memory.
    pub fn close(self, pass: Pass<M>) -> M
        requires lock { Of self pass }
        requires all { (pass.from ≡ 0) × (pass.until ≡ self.passes) }
        ensures starts { M.starts self.start }
        ensures reached { Reached M.plays self.start pass.seen result }
        ensures all { own 0 self.passes pass.seen ≡ pass.seen }
    {
        let Pass {
            seat,
            number: _,
            until: _,
            turn: _,
        } = pass;
        let FireLock { table } = self;
        let mut closed = table.close_with(seat);
        let Place { machine, played: _ } = closed.take(0);
        closed.free();
        machine
    }

    // Whether the low half of the word stays as it is for a while.
    fn stays(&self, word: usize, expected: u32) -> bool
        requires { word < 5 }
    {
        for _ in 0..PEEKS {
            if low(self.table.shared.peek(word)) != expected {
                return false;
            }
            spin_loop();
        }
        true
    }

    // Sleeps while the low half of the word is as expected, and is counted among the sleepers meanwhile.
    fn sleep<R: Wait>(
        &self,
        rt: &R,
        seat: &mut Seat<M>,
        word: usize,
        sleepers: usize,
        expected: u32,
    )
        requires words { (word < 5) × (0 < sleepers) × (sleepers < 5) }
        requires lock { seat.old.table_id ≡ self.now.id }
        ensures lock { seat.new.table_id ≡ seat.old.table_id }
        ensures same { seat.new.me ≡ seat.old.me }
    {
        let shared = &self.table.shared;
        shared.fetch_add::<Count>(seat, sleepers, 1);
        shared.park(rt, word, expected);
        shared.fetch_sub::<Count>(seat, sleepers, 1);
    }

    // Waits until the turn is free and takes it. `word` is a guess at word 0; the result is this word as the turn was free.
    fn take_turn<R: Wait>(&self, rt: &R, seat: &mut Seat<M>, mut word: u64) -> u64
        requires lock { seat.old.table_id ≡ self.now.id }
        requires rests { (seat.old.me.1 ≡ []) × Rests seat.old.me.0 }
        ensures lock { seat.new.table_id ≡ seat.old.table_id }
        ensures turn { (p : Place M M.Event M.Reply) × (seat.new.me.1 ≡ (0, p) ∷ []) × Turn M.starts M.plays seat.old.me.0 seat.new.me.0 p.machine }
    {
        let shared = &self.table.shared;
        for _ in rt.forever() {
            if word % 2 == 0 {
                let found = shared.compare_exchange::<Take<M>>(seat, TURN, word, word + 1);
                if found == word {
                    return word;
                }
                word = found;
            } else {
                word = self.await_turn(rt, seat, word);
            }
        }
        unreachable!()
    }

    // Waits for a while, as long as word 0 is as it was found while a pass had its turn. Gives the word as it is then.
    fn await_turn<R: Wait>(&self, rt: &R, seat: &mut Seat<M>, found: u64) -> u64
        requires lock { seat.old.table_id ≡ self.now.id }
        ensures lock { seat.new.table_id ≡ seat.old.table_id }
        ensures same { seat.new.me ≡ seat.old.me }
    {
        if self.stays(TURN, low(found)) {
            self.sleep(rt, seat, TURN, WAITING, low(found));
        }
        self.table.shared.peek(TURN)
    }

    // Plays the event while the seat has the turn, and gives the turn back.
    fn play(&self, seat: &mut Seat<M>, number: u32, event: M::Event) -> M::Reply
        requires lock { seat.old.table_id ≡ self.now.id }
        requires turn { (p : Place M M.Event M.Reply) × (seat.old.me.1 ≡ (0, p) ∷ []) × (seat.old.me.0.turn ≡ Some p.machine) × M.can p.machine number event }
        requires live { (number ≡ seat.old.me.0.from) × (seat.old.me.0.from < seat.old.me.0.until) × (seat.old.me.0.halves ≡ None) }
        ensures lock { seat.new.table_id ≡ seat.old.table_id }
        ensures home { seat.new.me.1 ≡ [] }
        ensures played { (m : M) × (m' : M) × (seat.old.me.0.turn ≡ Some m) × M.plays m number event result m' }
        ensures view { seat.new.me.0 ≡ record seat.old.me.0 { seen = seat.old.me.0.seen ++ entry number event result ∷ []; turn = None } }
    {
        let said = Snapshot::of(&event);
        let place = seat.slot_mut(&self.table.shared, 0);
        let reply = place.machine.play(number, event);
        place.played = Some(Played {
            event: said,
            reply: Snapshot::of(&reply),
        });
        self.enter(seat);
        reply
    }

    // Enters what was played last into the history, gives the turn back, and wakes one that waits for it.
    fn enter(&self, seat: &mut Seat<M>)
        requires lock { seat.old.table_id ≡ self.now.id }
        requires turn { (m : M) × (p : Place M M.Event M.Reply) × (q : Played M.Event M.Reply) × (seat.old.me.1 ≡ (0, p) ∷ []) × (seat.old.me.0.turn ≡ Some m) × (p.played ≡ Some q) × M.plays m seat.old.me.0.from q.event.value q.reply.value p.machine }
        requires live { (seat.old.me.0.from < seat.old.me.0.until) × (seat.old.me.0.halves ≡ None) }
        ensures lock { seat.new.table_id ≡ seat.old.table_id }
        ensures home { seat.new.me.1 ≡ [] }
        ensures view { (p : Place M M.Event M.Reply) (q : Played M.Event M.Reply) → seat.old.me.1 ≡ (0, p) ∷ [] → p.played ≡ Some q → seat.new.me.0 ≡ record seat.old.me.0 { seen = seat.old.me.0.seen ++ entry seat.old.me.0.from q.event.value q.reply.value ∷ []; turn = None } }
    {
        let shared = &self.table.shared;
        shared.fetch_add::<Enter>(seat, TURN, 1);
        if shared.peek(WAITING) > 0 {
            shared.wake_one(TURN);
        }
    }

    // Waits until there is news, where no step entered since word 0 was `turn`.
    // The pass is counted as idle already: a step that enters from now on tells it, and one that entered before made
    // the history longer.
    fn await_news<R: Wait>(&self, rt: &R, seat: &mut Seat<M>, turn: u64)
        requires lock { seat.old.table_id ≡ self.now.id }
        ensures lock { seat.new.table_id ≡ seat.old.table_id }
        ensures same { seat.new.me ≡ seat.old.me }
    {
        let shared = &self.table.shared;
        let news = low(shared.peek(NEWS));
        if shared.peek(TURN) / 2 == turn / 2 && self.stays(NEWS, news) {
            self.sleep(rt, seat, NEWS, ASLEEP, news);
        }
    }

    // Tells the idle passes of a reply that is news.
    fn announce(&self, seat: &mut Seat<M>, reply: &M::Reply)
        requires lock { seat.old.table_id ≡ self.now.id }
        ensures lock { seat.new.table_id ≡ seat.old.table_id }
        ensures same { seat.new.me ≡ seat.old.me }
    {
        let shared = &self.table.shared;
        if !M::news(reply) || shared.peek(IDLE) == 0 {
            return;
        }
        shared.fetch_add::<Count>(seat, NEWS, 1);
        if shared.peek(ASLEEP) > 0 {
            shared.wake_all(NEWS);
        }
    }
}
