//! What a machine keeps of a run in any order stands after each event: what live graphs keep in their ports and nodes
//! in their hands, what goes into the graphs that a node enters, and all leases that are out. Laws without code.
#![tactic(auto)]

mod entered_laws;
mod events_laws;
mod hands_laws;
mod leases_laws;
mod storage_laws;

pub use entered_laws::{
    copies_are_counted, given_ports_stay_full, graphs_are_entered_by_modes,
    graphs_are_entered_with_these, graphs_are_left_by_marks, graphs_are_placed,
    iterations_are_told, iterations_only_look, modes_go_by_marks, operands_are_there,
    outputs_fill_ports, parts_are_told, stages_are_told,
};
pub use events_laws::{claims_are_served, events_are_kept, what_is_kept_begins};
pub use hands_laws::{hands_are_kept, hands_begin_empty, unowned_keys_are_not_leased};
pub use leases_laws::{
    idle_nodes_lease_nothing, kept_leases_stay, leases_are_few, leases_are_of_nodes,
    no_lease_is_out_of_what_is_taken, scatters_keep_their_leases, slices_are_counted,
    sums_are_kept, sums_change_by_one_node, takers_find_no_lease, unread_ports_lease_the_same,
};
pub use storage_laws::{
    arms_are_lent_by_operands, contents_are_told, emptied_keys_are_unowned, filled_ports_carry,
    inputs_are_lent_by_operands, inputs_are_marked, no_scattered_lease_is_out, operands_are_first,
    scattered_leases_are_kept, taken_inputs_are_owned, takers_are_alone, takers_lease_nothing,
    told_operands_are_carried,
};
