//! The code of a unit, and runs of its functions.
#![tactic(auto)]

mod code;
mod make;
mod rooms;
mod runs;
mod values;

pub use code::UnitCode;
pub use make::unit_code;
pub use runs::{Totals, run_unit};
pub use unit_whole::RunFault;
