//! A lock round a machine.
//!
//! Whoever holds a pass of the lock plays events on the machine, one at a time. All events that were ever played, in
//! the order in which they were played, make one history. It stands in proofs alone: no memory keeps it.
#![tactic(auto)]

mod entry;
mod lock;
mod machine;
mod pass;
mod plays;
mod view;

pub use entry::Entry;
pub use lock::FireLock;
pub use machine::Machine;
pub use pass::Pass;
