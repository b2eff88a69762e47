//! What is known of the edges of a unit, as copies and writes go by it.
#![tactic(auto)]

mod joined;
mod laws;
mod rows;
mod tables;
mod types;

pub use joined::joined_nodes;
pub use laws::{
    consuming_edges_tell_what_is_given, consuming_rows_tell_what_is_given,
    marks_tell_what_is_taken, rows_stand_by_numbers,
};
pub use rows::Flags;
pub use tables::{aggregate_edges, consumed_edges};
pub use types::{has_aggregate_elements, is_aggregate};
pub use unit_orders::{all_graphs, firing_orders};
