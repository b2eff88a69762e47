//! Laws of what a unit of dataflow graphs means (IF1 manual M-170): its marks change nothing of it, and
//! values belong to the types of the edges that carry them; and what is added to a network changes nothing
//! that was given.
#![tactic(auto)]

mod laws;

pub use laws::{
    added_graphs_change_nothing, added_nodes_change_nothing, alike_units_cost_the_same,
    alike_units_mean_the_same, graphs_are_entered_on_inputs_of_their_types,
    operands_of_simple_nodes_fit, outputs_of_nodes_are_of_their_types,
    results_of_graphs_are_of_their_types, what_ports_carry_is_of_their_types,
};
