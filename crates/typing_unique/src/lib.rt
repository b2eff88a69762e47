//! Laws of typing: an expression has one list of types, and what breaks a typing rule has no type
//! (SISAL Language Reference Manual 1.2, expressions and programs).
#![tactic(auto)]

mod expr_laws;
mod unit_laws;

pub use expr_laws::{
    an_expression_has_one_list_of_types, an_expression_has_one_typed_tree,
    definitions_lead_to_one_scope, definitions_that_break_a_rule_define_nothing,
    expressions_have_one_list_of_typed_trees, expressions_have_one_list_of_types,
    lists_that_break_a_rule_have_no_types, types_are_proper, what_breaks_a_rule_has_no_type,
    what_breaks_a_rule_is_not_one_value,
};
pub use unit_laws::{
    a_unit_has_one_list_of_functions, a_unit_is_one_program, a_unit_is_one_typed_tree,
    a_unit_that_breaks_a_rule_is_no_program, a_written_type_is_one_type,
    typed_trees_are_one_where_numbers_agree, typed_trees_have_one_shape, what_misnames_is_no_type,
};
