//! The unit of IF1 graphs of a typed program, known to be valid.
#![tactic(auto)]

mod program;
mod ready;

pub use program::{TranslateFault, translate};
pub use ready::ready_unit;
