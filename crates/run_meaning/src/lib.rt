//! Laws of runs of a text's unit: they give what the text's source gives, at most eight firings a step (SISAL
//! Language Reference Manual 1.2).
#![tactic(auto)]

mod laws;

pub use laws::{runs_give_the_values_of_the_source, sources_within_the_limit_are_run};
