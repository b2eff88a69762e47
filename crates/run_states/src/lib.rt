//! What a machine that runs graphs in any order stands for: a table of live graphs with their paths, which stands
//! for what was claimed and made of the items of a run. Laws without code.
#![tactic(auto)]

mod laws;

pub use laws::{
    busy_graphs_stay_busy, claims_are_kept, claims_are_legal, ends_are_seen,
    entered_graphs_are_new, entered_graphs_stand, entered_stores_are_kept, filled_ports_are_kept,
    finishes_are_kept, finishes_are_legal, idle_graphs_lease_nothing, leases_add_up_to_none,
    leases_change_by_one_node, left_graphs_are_closed, live_graphs_are_of_their_paths,
    no_lease_is_out, nodes_are_of_the_run, other_ports_lease_the_same, paces_fall, paths_are_exact,
    ready_items_are_claimable, runs_begin, slices_are_cuts, slices_cost_their_iterations,
    steps_are_of_the_run, stores_are_kept, stores_begin, taken_ports_are_emptied,
    takers_are_last_in_entered_graphs, users_are_done, users_are_finished_in_entered_graphs,
    values_are_read,
};
