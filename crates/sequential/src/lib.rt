//! The machine of one worker, which goes through the steps of code in cells that own their values.
#![tactic(auto)]

mod bringing;
mod calling;
mod calls;
mod choices;
mod choosing;
mod copying;
mod entering;
mod firing;
mod giving;
mod handing;
mod joining;
mod laws;
mod leaving;
mod lending;
mod loading;
mod machine;
mod moving;
mod numbers;
mod scalar;
mod sights;
mod steps;
mod storing;
mod tagging;

pub use bringing::brought;
pub use calls::{Calls, OpenCall};
pub use choices::spoil;
pub use copying::copies_of;
pub use giving::give_up;
pub use laws::steps_are_for_all;
pub use loading::{load, operand_at, put_behind};
pub use machine::{Machine, Turn};
pub use moving::{operands_from, unload};
pub use scalar::{operand_of, quick_booleans, quick_cells, quick_number};
pub use sights::{boolean_at, cell_at, counted, direct, integer_at, number_in, sight};
pub use storing::{put, put_number, put_scalar};
