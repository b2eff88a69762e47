//! The sum of integers.
ghost use Rattle.std.specs.Prelude.{◌≡◌, ◌≤◌, ◌^◌, unsigned_abs};
ghost use Rattle.loop_folds.specs.Folds.{term_of};

use crate::reduction::Reduction;
use crate::seen::Seen;
use flow_value::{Val, whole};
use std::alloc::Global;
use std::marker::Model;

/// The exact sum of integers, which is brought to 64 bits at the end alone. An error among the
/// elements is the value; an element of another kind gives `error(explicit)`.
#[derive(Drop)]
pub struct Sum {
    seen: Seen,
    total: i128,
}

impl Model for Sum {
    ghost use Rattle.loop_folds.specs.SumState.{SumState, sum_state, IsBounded};

    ghost Value = { SumState };

    ghost view = { λ s. sum_state s.seen s.total };

    ghost invariant = { λ s. IsBounded s.seen.count s.total };
}

impl Reduction for Sum {
    ghost use Rattle.std.specs.Prelude.{[], false};
    ghost use Rattle.loop_folds.specs.Folds.{sum_fold};
    ghost use Rattle.loop_folds.specs.SumState.{state_of, joined_state, sum_laws};

    ghost count = { λ s. s.seen.count };

    ghost stands = { λ s xs. s ≡ state_of xs };

    ghost value = { sum_fold };

    ghost empty = { state_of [] };

    ghost joined = { joined_state };

    ghost refusable = { false };

    ghost laws = { sum_laws };

    fn unit(_alloc: Global) -> Sum {
        Sum {
            seen: Seen::nothing(),
            total: 0,
        }
    }

    fn put(&mut self, v: Val) -> Result<(), Val> {
        self.total += term(&v);
        self.seen.join(Seen::of_integer(&v));
        Ok(())
    }

    fn join(&mut self, later: Sum) -> Result<(), Sum> {
        self.total += later.total;
        self.seen.join(later.seen);
        Ok(())
    }

    fn done(self) -> Val {
        self.seen.checked(whole(self.total))
    }
}

/// What an element adds to the sum.
fn term(v: &Val) -> i128
    ensures value { result ≡ term_of v.now }
    ensures small { unsigned_abs result ≤ 2 ^ 63 }
{
    match v {
        Val::Int(n) => i128::from(*n),
        _ => 0,
    }
}
