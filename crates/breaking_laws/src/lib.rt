//! Laws of what breaks the typing rules: where the parts of a phrase are typed, also where types
//! stand by their numbers in the table of a program, and it is refused, it breaks the rule that is
//! named (SISAL Language Reference Manual 1.2, expressions and loops).
#![tactic(auto)]

mod form_laws;
mod part_laws;

pub use form_laws::{
    a_body_is_refused, a_call_breaks_in_its_arguments, a_call_is_refused,
    a_form_breaks_in_an_operand, a_form_breaks_in_its_elements, a_form_breaks_in_its_fields,
    a_form_is_refused, a_group_breaks_inside, a_let_breaks_in_its_definitions,
    a_let_breaks_in_its_results, a_list_breaks_in_a_part, a_name_of_no_loop_is_refused,
    a_value_breaks_in_itself, a_written_type_breaks, an_error_breaks_in_its_type,
    an_if_breaks_in_its_first_part, an_if_breaks_in_its_last_part, an_if_breaks_in_its_test,
    an_uneven_if_is_refused, an_unknown_name_is_refused, an_unknown_type_is_refused,
    fields_break_in_a_value, several_values_are_refused,
};
pub use part_laws::{
    a_clause_is_refused, a_clause_is_refused_over_its_values,
    a_clause_that_makes_nothing_is_refused, a_clause_that_makes_too_deep_a_type_is_refused,
    a_declared_type_is_refused, a_generator_is_refused, a_generator_over_nothing_is_refused,
    a_later_arm_is_refused, a_later_definition_is_refused, a_later_group_is_refused,
    a_loop_is_refused_by_its_clauses, a_loop_is_refused_by_its_definitions,
    a_loop_is_refused_by_its_groups, a_loop_is_refused_by_its_turn,
    a_loop_over_groups_is_refused_by_its_clauses, a_loop_over_groups_is_refused_by_its_definitions,
    a_mask_that_is_no_boolean_is_refused, a_name_of_a_group_stands_twice, a_name_stands_twice,
    a_tag_without_an_arm_is_refused, a_tagcase_is_refused_by_its_arms,
    a_tagcase_is_refused_by_its_last_results, a_tagcase_is_refused_by_its_subject,
    a_tagcase_over_no_union_is_refused, a_target_is_refused, a_target_stands_twice,
    a_test_that_is_no_boolean_is_refused, a_turn_is_refused_by_its_definitions,
    a_turn_is_refused_by_its_test, an_arm_has_results, another_number_of_values_is_refused,
    another_type_of_a_loop_name_is_refused, another_type_than_declared_is_refused,
    arms_that_differ_are_refused, clauses_are_refused_over_typed_values,
    clauses_are_refused_through_a_group, last_results_that_differ_are_refused,
    more_arms_have_results, no_arm_has_results, the_definitions_of_a_turn_are_refused,
    the_lower_bound_of_a_generator_is_refused, the_mask_of_a_clause_is_refused,
    the_results_of_an_arm_are_refused, the_tags_of_an_arm_are_refused,
    the_targets_of_a_definition_are_refused, the_upper_bound_of_a_generator_is_refused,
    the_value_of_a_clause_is_refused, the_values_of_a_definition_are_refused,
};
