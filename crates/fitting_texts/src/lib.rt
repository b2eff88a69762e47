//! Laws of the programs of texts: each is a fitting tree, whose names, types and functions stand as a
//! translation asks, and what it gives and meets belongs to its types (SISAL Language Reference Manual 1.2, programs, scope and constants).
#![tactic(auto)]

mod laws;

pub use laws::{
    functions_of_texts_give_values_of_their_types, functions_of_texts_meet_what_they_take,
    programs_of_texts_fit, results_of_texts_are_read,
};
