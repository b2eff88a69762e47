//! The types of the arguments of the functions of a valid unit, by number, for who reads values at them.
#![tactic(auto)]

mod arguments;
mod types;

pub use arguments::arguments_of;
pub use types::UnitTypes;
