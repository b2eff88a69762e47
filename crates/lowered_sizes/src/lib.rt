//! Sizes of what a typed program becomes: how many nodes, graphs and ports, by one fold over its tree
//! (`lowering` has the limits). Definitions and a law.
#![tactic(auto)]

mod laws;
mod sizes;

pub use laws::sizes_are_exact;
pub use sizes::Sizes;
