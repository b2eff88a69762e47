//! Units of IF1 text, read.
#![tactic(auto)]

mod fault;
mod judge;
mod laws;
mod level;
mod lines;
mod literals;
mod machine;
mod names;
mod number;
mod part;
mod read;
mod reals;
mod table;

pub use laws::accepted_has_no_fault;
pub use literals::literal;
pub use read::read_if1;
