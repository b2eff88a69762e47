//! The ordered meaning of graphs: results, firings, copies and writes by one recursion, where the nodes
//! of each graph fire one after another. Laws without code: it is the definition of record again.
#![tactic(auto)]

mod laws;

pub use laws::{
    orders_are_alike, sums_in_order_are_of_record, takers_are_last_in_order,
    takers_of_units_are_last, the_ordered_meaning_is_of_record, units_have_orders,
    units_mean_the_same_in_order,
};
