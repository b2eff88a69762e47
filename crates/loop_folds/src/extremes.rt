//! The least and the greatest of integers.
ghost use Rattle.std.specs.Prelude.{◌≡◌};
ghost use Rattle.std.specs.Int.{int_max, int_min};
ghost use Rattle.loop_folds.specs.Folds.{integer_of, one_of, found};

use crate::reduction::Reduction;
use crate::seen::Seen;
use flow_value::{Cause, Val};
use std::alloc::Global;
use std::marker::Model;

/// The least of integers; of none it is `error(empty)`. An error among the elements is the value;
/// an element of another kind gives `error(explicit)`.
#[derive(Drop)]
pub struct Least {
    seen: Seen,
    least: Option<i64>,
}

impl Model for Least {
    ghost use Rattle.loop_folds.specs.ExtremeState.{ExtremeState, extreme_state, IsCounted};

    ghost Value = { ExtremeState };

    ghost view = { λ s. extreme_state s.seen s.least };

    ghost invariant = { λ s. IsCounted s.seen.count };
}

impl Reduction for Least {
    ghost use Rattle.std.specs.Prelude.{[], false};
    ghost use Rattle.loop_folds.specs.Folds.{least_fold};
    ghost use Rattle.loop_folds.specs.ExtremeState.{state_of, joined_state, least_laws};

    ghost count = { λ s. s.seen.count };

    ghost stands = { λ s xs. s ≡ state_of int_min xs };

    ghost value = { least_fold };

    ghost empty = { state_of int_min [] };

    ghost joined = { joined_state int_min };

    ghost refusable = { false };

    ghost laws = { least_laws };

    fn unit(_alloc: Global) -> Least {
        Least {
            seen: Seen::nothing(),
            least: None,
        }
    }

    fn put(&mut self, v: Val) -> Result<(), Val> {
        self.least = lesser(self.least, integer(&v));
        self.seen.join(Seen::of_integer(&v));
        Ok(())
    }

    fn join(&mut self, later: Least) -> Result<(), Least> {
        self.least = lesser(self.least, later.least);
        self.seen.join(later.seen);
        Ok(())
    }

    fn done(self) -> Val {
        self.seen.checked(found_or_empty(self.least))
    }
}

/// The greatest of integers; of none it is `error(empty)`. An error among the elements is the
/// value; an element of another kind gives `error(explicit)`.
#[derive(Drop)]
pub struct Greatest {
    seen: Seen,
    greatest: Option<i64>,
}

impl Model for Greatest {
    ghost use Rattle.loop_folds.specs.ExtremeState.{ExtremeState, extreme_state, IsCounted};

    ghost Value = { ExtremeState };

    ghost view = { λ s. extreme_state s.seen s.greatest };

    ghost invariant = { λ s. IsCounted s.seen.count };
}

impl Reduction for Greatest {
    ghost use Rattle.std.specs.Prelude.{[], false};
    ghost use Rattle.loop_folds.specs.Folds.{greatest_fold};
    ghost use Rattle.loop_folds.specs.ExtremeState.{state_of, joined_state, greatest_laws};

    ghost count = { λ s. s.seen.count };

    ghost stands = { λ s xs. s ≡ state_of int_max xs };

    ghost value = { greatest_fold };

    ghost empty = { state_of int_max [] };

    ghost joined = { joined_state int_max };

    ghost refusable = { false };

    ghost laws = { greatest_laws };

    fn unit(_alloc: Global) -> Greatest {
        Greatest {
            seen: Seen::nothing(),
            greatest: None,
        }
    }

    fn put(&mut self, v: Val) -> Result<(), Val> {
        self.greatest = greater(self.greatest, integer(&v));
        self.seen.join(Seen::of_integer(&v));
        Ok(())
    }

    fn join(&mut self, later: Greatest) -> Result<(), Greatest> {
        self.greatest = greater(self.greatest, later.greatest);
        self.seen.join(later.seen);
        Ok(())
    }

    fn done(self) -> Val {
        self.seen.checked(found_or_empty(self.greatest))
    }
}

fn integer(v: &Val) -> Option<i64>
    ensures { result ≡ integer_of v.now }
{
    match v {
        Val::Int(n) => Some(*n),
        _ => None,
    }
}

fn lesser(a: Option<i64>, b: Option<i64>) -> Option<i64>
    ensures { result ≡ one_of int_min a b }
{
    match (a, b) {
        (Some(m), Some(n)) => Some(m.min(n)),
        (Some(m), None) => Some(m),
        (None, other) => other,
    }
}

fn greater(a: Option<i64>, b: Option<i64>) -> Option<i64>
    ensures { result ≡ one_of int_max a b }
{
    match (a, b) {
        (Some(m), Some(n)) => Some(m.max(n)),
        (Some(m), None) => Some(m),
        (None, other) => other,
    }
}

fn found_or_empty(integer: Option<i64>) -> Val
    ensures { result ≡ found integer }
{
    match integer {
        Some(n) => Val::Int(n),
        None => Val::Err(Cause::Empty),
    }
}
