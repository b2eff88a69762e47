//! Runs of code: the steps of the machine of one worker, one after another, to the end or to a
//! limit of firings.
#![tactic(auto)]

mod choosing;
mod fusing;
mod items;
mod laws;
mod running;
mod stepping;
mod totals;
mod went;
mod writing;

pub use fusing::{Choice, Fork, Fusion, Join, fusions_of};
pub use items::Open;
pub use laws::runs_of_stored_code_begin;
pub use running::{RunFault, advance, run};
pub use stepping::{step, step_here};
pub use totals::{Totalled, run_function};
pub use went::Went;
