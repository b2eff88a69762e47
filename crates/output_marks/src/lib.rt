//! Which outputs of nodes are aggregates, as marks for code.
#![tactic(auto)]

mod marks;
mod outputs;

pub use marks::add_marks;
pub use outputs::{OutputSet, aggregate_outputs};
pub use storage_flags::{
    Flags, aggregate_edges, all_graphs, consumed_edges, firing_orders, joined_nodes,
};
