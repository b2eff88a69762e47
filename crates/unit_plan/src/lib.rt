//! The plan of a unit, its shares and weights, and runs of the code that is made of it. Laws without code.
#![tactic(auto)]

mod laws;

pub use laws::{
    plans_of_units_are_right, plans_of_units_pick_for_parts, runs_of_plans_of_units_are_decided,
    tables_of_units_are_there, writes_of_plans_are_right, writes_of_plans_of_units_are_of_record,
};
