//! Orders in which the nodes of a graph may fire one after another: along its data edges and ordering lists.
#![tactic(auto)]

mod laws;
mod order;

pub use laws::{firing_orders_are_in_order, units_have_firing_orders};
pub use order::firing_order;
