//! How the steps of code that is made handle their operands, and which cells are live there and own what
//! they have. Laws without code.
#![tactic(auto)]

mod laws;

pub use laws::{
    code_that_is_made_is_stored_code, code_that_is_set_is_stored_code,
    no_step_reads_behind_what_it_takes, runs_of_units_by_marks_are_decided,
    runs_of_units_that_are_made_are_decided, takers_by_marks_are_last, takers_by_marks_are_owned,
    weights_by_marks_of_units_are_of_record, weights_by_modes_are_of_record,
    writes_of_units_that_are_made_are_of_record,
};
