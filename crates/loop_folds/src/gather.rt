//! The elements of a list as an array.
ghost use Rattle.std.specs.Prelude.{◌≡◌};

use crate::kept::{keep, keep_all};
use crate::reduction::Reduction;
use flow_value::{Items, Val, array_of};
use std::alloc::Global;
use std::marker::Model;

/// The elements as an array from 1, errors included; too many of them give `error(size)`.
#[derive(Drop)]
pub struct Gather {
    count: u64,
    items: Items,
}

impl Model for Gather {
    ghost use Rattle.flow_value.specs.contracts.value.Val as row;
    ghost use Rattle.loop_folds.specs.GatherState.{GatherState, gathered, gathered_code, IsCounted};

    ghost Value = { GatherState };

    ghost coded = { gathered_code row.the_row.coded };

    ghost view = { λ g. gathered g.count g.items };

    ghost invariant = { λ g. IsCounted g.count };
}

impl Reduction for Gather {
    ghost use Rattle.std.specs.Prelude.{◌≡◌, [], true};
    ghost use Rattle.loop_folds.specs.Folds.{gather_fold};
    ghost use Rattle.loop_folds.specs.GatherState.{state_of, joined_state, gather_laws};

    ghost count = { λ g. g.count };

    ghost stands = { λ g xs. g ≡ state_of xs };

    ghost value = { gather_fold };

    ghost empty = { state_of [] };

    ghost joined = { joined_state };

    ghost refusable = { true };

    ghost laws = { gather_laws };

    fn unit(alloc: Global) -> Gather {
        Gather {
            count: 0,
            items: Items::new(alloc),
        }
    }

    fn put(&mut self, v: Val) -> Result<(), Val> {
        keep(&mut self.items, v)?;
        self.count += 1;
        Ok(())
    }

    fn join(&mut self, later: Gather) -> Result<(), Gather> {
        let Gather { count, items } = later;
        match keep_all(&mut self.items, items) {
            Ok(()) => {
                self.count += count;
                Ok(())
            }
            Err(items) => Err(Gather { count, items }),
        }
    }

    fn done(self) -> Val {
        array_of(1, self.items)
    }
}
