//! Ranges of the iterations of a ForAll, run by the machine of one worker on a block that stands alone:
//! the work of a slice of a parallel run.
#![tactic(auto)]

mod ranging;

pub use ranging::run_range;
