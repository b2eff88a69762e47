//! The values that the functions of a typed SISAL program give, by the definition in `meaning`,
//! and the evaluator that computes them.
#![tactic(auto)]

mod begin;
mod budget;
mod evaluator;
mod finish;
mod loops;
mod machine;
mod reads;
mod rows;
mod slots;
mod sources;
mod state;
mod words;

pub use evaluator::{Found, MeanFault, depths_agree, mean, turns_agree};
pub use reads::what_is_not_read_is_free;
