//! The table of types of a unit while it is made: each entry once, in the order of first need, and
//! the labels of types (IF1 manual M-170, type table).
#![tactic(auto)]

mod functions;
mod known;
mod table;
mod types;

pub use known::Known;
pub use table::{LabelFault, Table};
