//! A machine whose cells own their values: what it reads is looked at, copied or taken. Laws without code:
//! it does what the machine on values does, and never reads what was taken or takes what is lent.
#![tactic(auto)]

mod laws;

pub use laws::{
    ends_that_own_are_of_record, modes_copy_what_is_consumed_and_left,
    nodes_are_lively_where_takers_are_last, runs_of_units_are_decided, runs_that_end_have_sums,
    runs_that_own_are_decided, runs_that_own_begin, steps_are_effects, steps_lead_where_they_say,
    sums_that_own_are_of_record, the_machine_that_owns_is_exact,
    the_machine_that_owns_is_never_stuck, the_machine_that_owns_refines,
    writes_of_units_are_of_record,
};
