//! What the edges of a dataflow graph may take to change it in place: Cann's storage rules, and marks
//! that keep them.
#![tactic(auto)]

mod laws;

pub use laws::{
    alike_units_are_formed, alike_units_are_normal, alike_units_are_ready,
    compound_nodes_consume_what_is_given, given_inputs_have_a_consuming_edge,
    marks_without_fault_are_sound, no_marks_are_sound, no_port_is_taken_twice,
    ready_units_without_lists_are_in_order, sound_marks_close_no_cycle, sound_marks_have_no_fault,
    the_order_is_known, the_rules_look_at_no_marks, the_taker_has_one_edge, the_taker_is_last,
    units_without_marks_are_as_before, unmarked_units_have_no_marks, ways_are_found,
    what_is_lent_is_not_owned,
};
