//! The code of a unit counts the copies of record. Laws without code.
#![tactic(auto)]

mod laws;

pub use laws::{code_of_told_data_counts_copies, code_of_told_data_counts_writes};
