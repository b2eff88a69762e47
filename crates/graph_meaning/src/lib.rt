//! What a dataflow graph means, and every order in which its nodes may fire (IF1 manual M-170).
#![tactic(auto)]

mod laws;

pub use laws::{
    copies_are_defined_where_the_cost_is, copies_of_units_are_defined, copies_of_units_are_one,
    costs_are_stable, depths_have_one_cost, depths_have_one_meaning, executions_are_confluent,
    executions_are_never_stuck, graphs_are_found_by_number, nothing_is_called_at_depth_zero,
    orders_are_right_without_lists, other_users_are_finished_before_the_taker, outputs_are_counted,
    ready_units_are_orderly, ready_units_have_one_end, runs_are_confluent, runs_are_never_stuck,
    sound_units_have_one_end, sums_are_defined_where_the_cost_is, the_cost_is_of_any_cut,
    the_cost_is_one, the_cost_is_the_sum, the_error_of_the_least_port_is_given, the_meaning_is_one,
    the_meaning_is_stable, the_plain_cost_is_stable, the_sum_is_one, the_sum_is_stable, trees_grow,
    unmarked_consuming_edges_are_copied, users_are_finished_before_a_taker,
    values_are_given_where_the_cost_is, values_are_stable, what_ports_carry_is_one,
};
