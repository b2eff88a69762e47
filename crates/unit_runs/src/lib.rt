//! Runs of the code of a unit are of record. Laws without code.
#![tactic(auto)]

mod laws;

pub use laws::{
    handlings_that_agree_do_the_same, literals_are_not_copied, parts_of_units_pass_literals_on,
    plans_of_units_copy_no_literal, ports_of_units_copy_no_literal, quick_code_is_of_units,
    quick_code_writes_as_much, runs_of_unit_code_are_of_record, writes_of_unit_code_are_of_record,
};
