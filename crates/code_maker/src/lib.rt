//! Code is made of the data of a plan: one step behind another, with their operands, targets and
//! collections in flat lists.
#![tactic(auto)]

mod draft;
mod emit;
mod make;
mod seats;
mod sparse;
mod steps;

pub use draft::Draft;
pub use make::code_of;
pub use seats::Seat;
