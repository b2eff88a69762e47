//! Each legal history has ended or has a table of live graphs that stands for it, and one worker comes to an end; a
//! run has so many claims at most, and what its items add to a sum over its firings is that sum. Laws without code.
#![tactic(auto)]

mod bounds_laws;
mod sums_laws;
mod tables_laws;

pub use bounds_laws::{claims_are_bounded, claims_of_workers_are_bounded, slices_are_few};
pub use sums_laws::{
    finished_items_add_up, items_add_once, items_of_whole_runs_add, sums_are_of_items,
};
pub use tables_laws::{costs_are_decided, histories_have_tables, runs_of_one_worker_end};
