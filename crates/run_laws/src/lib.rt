//! The machine that goes through code is exact: it ends with the results of record at their cost, and
//! what it adds on its way is the sum of record. Laws without code.
#![tactic(auto)]

mod laws;

pub use laws::{
    alike_weights_give_the_same_sums, ends_are_of_record, runs_are_decided,
    the_machine_does_it_all, the_machine_is_exact, the_machine_stops, what_is_known_stays_true,
};
