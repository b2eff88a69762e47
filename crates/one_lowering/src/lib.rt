//! Laws that the graphs of a unit do not hang on the numbers that its typed tree gives to types (IF1
//! manual M-170, type table).
#![tactic(auto)]

mod laws;

pub use laws::{numbers_of_types_make_no_graphs, typed_trees_are_lowered_alike};
