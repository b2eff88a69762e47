//! The names of values that are in force at a place of a function (SISAL Language Reference Manual
//! 1.2, scope), each with the level and the type of its value.
//!
//! An inner name hides an outer one until its scope ends. In the turn of a `for initial` the loop
//! names also stand for the values of the turn before, behind the word `old`. Looking a name up,
//! bringing one into force and ending one each take constant time.
#![tactic(auto)]

mod in_force;
mod value;

pub use in_force::{InForce, Mark};
pub use value::{Meaning, Value};
