//! The labels of what the lines of a translated program carry.
#![tactic(auto)]

mod labels;
mod needs;

pub use labels::Labels;
pub use needs::Needs;
