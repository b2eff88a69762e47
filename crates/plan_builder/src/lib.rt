//! The making of plans as data: of the graphs of a unit, in which cells the outputs of their nodes
//! stand, what fills each port, and nodes with their ports.
#![tactic(auto)]

mod collects;
mod feeds;
mod laws;
mod nodes;
mod outlets;
mod ways;
mod widths;

pub use collects::add_collects;
pub use feeds::{literal_feed, port_feed, unfilled_feed};
pub use laws::{collects_are_of_ways, outlets_are_of_units, outputs_are_in_extents};
pub use nodes::{call_node, compound_node, given_port, port_of, simple_node};
pub use outlets::{Outlets, outlet, outlets_of};
pub use ways::{Reading, multiple_of, reading_of};
pub use widths::plain_width;
