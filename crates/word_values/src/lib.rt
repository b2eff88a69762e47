//! Laws of words that are read as values of types: they belong to these types.
#![tactic(auto)]

mod laws;

pub use laws::{what_is_read_is_of_its_type, words_are_values_of_their_types};
