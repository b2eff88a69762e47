//! How many inputs each graph of a unit has, and in a returns how many of them are no multiples of iterations or turns.
#![tactic(auto)]

mod inputs;
mod walk;

pub use inputs::Inputs;
pub use walk::unit_inputs;
