//! The code of a unit for a reader: where its functions begin, and its steps, a line each.
#![tactic(auto)]

mod lines;
mod names;
mod operands;
mod steps;

pub use lines::listing;
pub use unit_code::unit_code;
