//! What the lines of a translated program carry, by a walk over its typed tree in which each phrase
//! is read once: definition and laws.
#![tactic(auto)]

mod laws;

pub use laws::{faults_are_traced, lines_are_traced, tables_are_traced};
