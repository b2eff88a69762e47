//! Code that is made of a plan does its graphs and stays inside its blocks. Laws without code.
#![tactic(auto)]

mod laws;

pub use laws::{
    code_that_is_made_does_its_graphs, code_that_is_made_stays_inside,
    levels_by_numbers_are_enough, lines_that_are_made_lie, orders_are_readable,
    runs_of_what_is_made_are_decided, tables_of_plans_are_there,
};
