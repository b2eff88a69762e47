//! What one plays events through.
ghost use Rattle.std.specs.Prelude.{◌≡◌};

use crate::machine::Machine;
use crate::view::Seat;
use std::marker::Model;

/// A range of numbers, to step with. It has no `Drop`: `FireLock::join` or `FireLock::close` takes it back.
pub struct Pass<M: Machine> {
    pub(crate) seat: Seat<M>,
    pub(crate) number: u32,
    pub(crate) until: u32,
    // The word of the turn as it was after the last step.
    pub(crate) turn: u64,
}

impl<M: Machine> Model for Pass<M> {
    ghost use Rattle.std.specs.Prelude.{◌≡◌, []};
    ghost use Rattle.fire_lock.specs.Passes.{PassView};

    ghost Value = { PassView M M.Event M.Reply };

    ghost use Rattle.fire_lock.specs.Rules.{shown, Rests};

    ghost view = { λ p. shown p.seat.table_id p.seat.me.0 };

    ghost invariant = { λ p. (p.number ≡ p.seat.me.0.from) × (p.until ≡ p.seat.me.0.until) × (p.seat.me.1 ≡ []) × Rests p.seat.me.0 };
}

impl<M: Machine> Pass<M> {
    /// The least number of the pass, which its steps carry.
    pub fn number(&self) -> u32
        ensures { result ≡ self.now.from }
    {
        self.number
    }
}
