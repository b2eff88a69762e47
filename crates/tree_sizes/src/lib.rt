//! Sizes of what a typed program becomes, by one walk over its tree before anything is made: the
//! function in which its graphs show to be too large or too many (`graphs_over`). Numbers are kept up
//! to the greatest of 128 bits.
#![tactic(auto)]

mod leaves;
mod loops;
mod names;
mod places;
mod program;
mod sums;
mod turns;
mod walk;

pub use program::graphs_over;
