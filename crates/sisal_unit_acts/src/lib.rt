//! What each production of units, types, definitions and loops makes of the values of its symbols.
#![tactic(auto)]

mod clauses;
mod defs;
mod loops;
mod types;
mod units;

pub use clauses::{ClauseAct, perform_clause};
pub use defs::{DefAct, perform_def};
pub use loops::{LoopAct, perform_loop};
pub use types::{TypeAct, perform_type};
pub use units::{UnitAct, perform_unit};
