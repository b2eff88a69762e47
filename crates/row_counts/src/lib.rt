//! What simple nodes of code write and copy, by their rows and by what is told of their edges.
#![tactic(auto)]

mod counts;

pub use counts::{counted_of, written_of};
