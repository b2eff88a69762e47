//! The values that lie on a stack while a unit is made of the steps of its derivation: the stack, what is taken off
//! its top by its kind, and what a token says beyond its class.
#![tactic(auto)]

mod stack;
mod take_exprs;
mod take_loops;
mod take_units;
mod words;

pub use stack::Values;
pub use words::{
    binary_of, constant_of, direction_of, gathered_of, is_unless, is_until, name_in, named,
    prefix_of, reduction_of, scalar_of, span,
};
