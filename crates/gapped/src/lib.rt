//! Lists of which many items are fillers.
#![tactic(auto)]

mod gapped;

pub use gapped::{Gapped, Items, spread_out};
