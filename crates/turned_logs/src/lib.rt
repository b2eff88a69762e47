//! The one direction of histories: a lock's log has its first entry first, a history of items its last, and one word
//! turns either into the other. Laws without code.
#![tactic(auto)]

mod laws;

pub use laws::{legal_histories_are_logs, logs_are_turned, logs_tell_what_was_claimed};
