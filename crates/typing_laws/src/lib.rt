//! Laws of typing: typed parts make typed expressions, also where types stand by their numbers in the
//! table of a program (SISAL Language Reference Manual 1.2, expressions and loops).
#![tactic(auto)]

mod laws;

pub use laws::{
    a_call_is_typed, a_clause_is_typed, a_constant_is_typed, a_form_is_typed, a_function_is_typed,
    a_group_is_typed, a_let_is_typed, a_loop_around_another_is_typed, a_loop_of_turns_is_typed,
    a_loop_over_a_group_is_typed, a_loop_over_groups_is_typed, a_name_is_typed,
    a_name_of_a_type_is_resolved, a_tagcase_is_typed, a_turn_is_typed,
    a_value_of_a_clause_is_typed, a_written_type_is_denoted, an_arm_is_typed, an_if_is_typed,
    an_old_name_is_typed, definitions_are_typed, generators_are_typed, names_are_distinct,
    numbers_stand,
};
