//! What the steps of made code add is what the plan's lines add. Laws without code.
#![tactic(auto)]

mod laws;

pub use code_maker::code_of;
pub use laws::{copies_of_code_are_of_plans, writes_of_code_are_of_plans};
