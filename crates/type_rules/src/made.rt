//! Outcomes and the types that they make.
ghost use Rattle.std.specs.Prelude.{◌≡◌};
ghost use Rattle.type_rules.specs.Parts.{there, outcome_of, sort_if};

use crate::head::{Outcome, Sort};
use value_ops::Operation;

/// An operation that gives a type that is there.
pub fn there(operation: Operation, ty: usize) -> Outcome
    ensures { result ≡ there operation ty }
{
    Outcome {
        operation,
        sort: Sort::There(ty),
    }
}

/// An operation with what it gives.
pub fn outcome_of(operation: Operation, sort: Option<Sort>) -> Option<Outcome>
    ensures { result ≡ outcome_of operation sort }
{
    match sort {
        Some(sort) => Some(Outcome { operation, sort }),
        None => None,
    }
}

/// The type of a number, where the test holds.
pub fn sort_if(test: bool, ty: usize) -> Option<Sort>
    ensures { result ≡ sort_if test ty }
{
    if test { Some(Sort::There(ty)) } else { None }
}
