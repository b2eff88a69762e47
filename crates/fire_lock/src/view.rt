//! What a seat of the lock's table knows, and what the table's slot holds.
use crate::entry::Entry;
use crate::machine::Machine;
use std::collections::LinkedList;
use std::snapshot::Snapshot;

/// What a seat knows. No value of it is made.
pub struct View<M, E, R> {
    /// The least number that is its own.
    pub from: u32,
    /// The first number above those that are its own.
    pub until: u32,
    /// The beginning of the history that it has seen.
    pub seen: LinkedList<Entry<E, R>>,
    /// The machine that the lock was made with. A seat that was joined into another has none.
    pub start: Option<M>,
    /// The machine as the seat found it, while it has the turn.
    pub turn: Option<M>,
    /// What it was joined from, until a load tells that this lives on in what it has seen.
    pub halves: Option<Halves<E, R>>,
}

/// Two views that were joined. No value of it is made.
pub struct Halves<E, R> {
    pub middle: u32,
    pub first: LinkedList<Entry<E, R>>,
    pub second: LinkedList<Entry<E, R>>,
}

/// The slot: the machine, and what was played on it last.
pub struct Place<M, E, R> {
    pub machine: M,
    pub played: Option<Played<E, R>>,
}

/// An event and its reply, for proofs alone.
#[derive(Drop)]
pub struct Played<E, R> {
    pub event: Snapshot<E>,
    pub reply: Snapshot<R>,
}

/// What the table is told when it is made.
#[derive(Drop)]
pub struct Origin<M> {
    pub passes: u32,
    pub machine: Snapshot<M>,
}

pub type Slot<M> = Place<M, <M as Machine>::Event, <M as Machine>::Reply>;

pub type Known<M> = View<M, <M as Machine>::Event, <M as Machine>::Reply>;

pub type Seat<M> = atomic_table::Seat<Slot<M>, Known<M>>;
