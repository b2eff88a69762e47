//! Small graphs and what they mean: each row of the tables of nodes, an error in each place where they have one, and a unit that
//! is ready (IF1 manual M-170).
#![tactic(auto)]

mod errors;
mod rows;
mod unit;

pub use errors::{
    bounds_too_great_fail, calls_pass_errors, elements_fail, empty_lists_fail, errors_are_passed,
    folds_are_strict, for_alls_fail, foreign_elements_fail, foreign_lists_fail,
    foreign_numbers_fail, foreign_parts_fail, foreign_records_fail, foreign_scalars_fail,
    gathers_fail, generators_are_strict, generators_fail, indices_outside_fail, lasts_fail,
    lists_too_long_fail, loops_fail, nodes_on_lists_are_strict, nodes_on_records_are_strict,
    reductions_fail, scalar_nodes_are_strict, scalar_nodes_fail, selects_fail, tag_cases_fail,
};
pub use rows::{fold_rows_give, list_rows_give, loops_give, record_rows_give, scalar_rows_give};
pub use unit::{the_example_gives_the_greater, the_example_has_one_end, the_example_is_ready};
