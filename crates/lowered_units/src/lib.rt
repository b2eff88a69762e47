//! Units of programs: the unit of IF1 graphs that a typed program is translated to, as a relation,
//! and its laws (IF1 manual M-170).
#![tactic(auto)]

mod laws;

pub use laws::{
    a_program_is_one_unit, ports_within_the_limits_are_small,
    tables_of_translated_units_are_formed, translated_units_are_formed,
    translated_units_are_normal, translated_units_run_as_lowered,
};
