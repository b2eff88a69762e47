//! The rule of the lock's table, and what each kind of step tells.
ghost use Rattle.std.specs.Prelude.{};
ghost use Rattle.fire_lock.specs.Rules.{Kept, first, spent, cut_left, cut_right, glued, stays, takes_turn, enters, settles};

use crate::machine::Machine;
use crate::view::{Known, Origin, Place, Slot, View};
use atomic_table::{Join, Play, Split, TableRule};
use std::marker::PhantomData;

pub struct Law<M> {
    of: PhantomData<M>,
}

impl<M: Machine> TableRule<Slot<M>, Known<M>, Origin<M>> for Law<M> {
    ghost holds = { λ origin. Kept M.starts M.plays origin.passes origin.machine.value };

    ghost first = { λ origin. first origin.passes origin.machine.value };
}

/// A count of sleepers or of news goes up or down.
pub(crate) struct Count;

impl<M, E, R> Play<Place<M, E, R>, View<M, E, R>> for Count {
    ghost then = { stays };
}

/// The seat takes its turn, if the lock is free.
pub(crate) struct Take<M> {
    of: PhantomData<M>,
}

impl<M: Machine> Play<Slot<M>, Known<M>> for Take<M> {
    ghost then = { takes_turn M.starts M.plays };
}

/// The seat's event enters the history, and the lock is free.
pub(crate) struct Enter;

impl<M, E, R> Play<Place<M, E, R>, View<M, E, R>> for Enter {
    ghost then = { enters };
}

/// The seat learns that what it was joined from lives on.
pub(crate) struct Settle;

impl<M, E, R> Play<Place<M, E, R>, View<M, E, R>> for Settle {
    ghost then = { settles };
}

pub(crate) struct Cut;

impl<M, E, R> Split<View<M, E, R>> for Cut {
    ghost left = { cut_left };

    ghost right = { cut_right };
}

pub(crate) struct Glue;

impl<M, E, R> Join<View<M, E, R>> for Glue {
    ghost both = { glued };

    ghost spent = { spent };
}
