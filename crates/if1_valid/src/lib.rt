//! Units that are valid: their ports are filled as the table of nodes says, with the types that it wants,
//! and no node reaches itself.
#![tactic(auto)]

mod check;
mod params;
mod ready;

pub use check::{numbered, valid};
pub use ready::Ready;
