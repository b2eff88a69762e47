//! What data tells of the nodes of a unit by their rows is what the unit's plan weighs. Laws without code.
#![tactic(auto)]

mod laws;

pub use code_weights::code_of;
pub use laws::{copies_by_rows_are_of_units, writes_by_rows_are_of_units};
