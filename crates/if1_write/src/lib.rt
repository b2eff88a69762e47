//! The canonical IF1 text of a unit.
#![tactic(auto)]

mod laws;
mod order;
mod write;

pub use laws::written_is_read;
pub use write::write_if1;
