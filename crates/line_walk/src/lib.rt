//! A walk over typed trees that meets whatever the lines of their graphs carry.
#![tactic(auto)]

mod choices;
mod functions;
mod loops;
mod nodes;
mod ports;
mod turns;
mod walk;

pub use functions::add_function;
