//! The last element of a list.
ghost use Rattle.std.specs.Prelude.{◌≡◌};

use crate::reduction::Reduction;
use flow_value::{Cause, Val};
use std::alloc::Global;
use std::marker::Model;

/// The last element, whatever it is; of none it is `error(empty)`.
#[derive(Drop)]
pub struct Last {
    count: u64,
    last: Option<Val>,
}

impl Model for Last {
    ghost use Rattle.flow_value.specs.contracts.value.Val as row;
    ghost use Rattle.loop_folds.specs.LastState.{LastState, last_state, last_code, IsCounted};

    ghost Value = { LastState };

    ghost coded = { last_code row.the_row.coded };

    ghost view = { λ s. last_state s.count s.last };

    ghost invariant = { λ s. IsCounted s.count };
}

impl Reduction for Last {
    ghost use Rattle.std.specs.Prelude.{◌≡◌, [], false};
    ghost use Rattle.loop_folds.specs.Folds.{last_fold};
    ghost use Rattle.loop_folds.specs.LastState.{state_of, joined_state, last_laws};

    ghost count = { λ s. s.count };

    ghost stands = { λ s xs. s ≡ state_of xs };

    ghost value = { last_fold };

    ghost empty = { state_of [] };

    ghost joined = { joined_state };

    ghost refusable = { false };

    ghost laws = { last_laws };

    fn unit(_alloc: Global) -> Last {
        Last {
            count: 0,
            last: None,
        }
    }

    fn put(&mut self, v: Val) -> Result<(), Val> {
        self.last = Some(v);
        self.count += 1;
        Ok(())
    }

    fn join(&mut self, later: Last) -> Result<(), Last> {
        let Last { count, last } = later;
        self.count += count;
        if let Some(v) = last {
            self.last = Some(v);
        }
        Ok(())
    }

    fn done(self) -> Val {
        match self.last {
            Some(v) => v,
            None => Val::Err(Cause::Empty),
        }
    }
}
