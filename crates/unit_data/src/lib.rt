//! The data of the plan of a unit.
#![tactic(auto)]

mod facts;
mod graphs;
mod nodes;
mod tables;
mod unit;

pub use unit::data_of;
