//! From a typed program and the words of its entry's arguments to the values of its results.
#![tactic(auto)]

mod arguments;
mod call;
mod entry;
mod fault;
mod known;
mod linking;
mod table;

pub use arguments::values_of_words;
pub use call::{evaluate, one_call};
pub use fault::{ArgumentFault, Refusal};
