//! From an IF1 text to its canonical text.
#![tactic(auto)]

mod canonical;

pub use canonical::canonical_text;
