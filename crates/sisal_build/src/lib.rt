//! From the steps of a derivation of a SISAL text to its tree.
#![tactic(auto)]

mod build;
mod performing;
mod task;

pub use build::{classes_of, outline_of};
