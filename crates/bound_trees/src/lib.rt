//! Laws of typed trees: each name stands for a value that is in force, each call is that of a
//! function of the program, each constant is one that a text can spell, and no expression nests
//! deeper than its text (SISAL Language Reference Manual 1.2, scope and constants).
#![tactic(auto)]

mod laws;

pub use laws::{
    a_bound_expression_has_bound_parts, bound_expressions_are_bound, typed_texts_are_bound,
    typed_units_are_bound, typed_units_nest_as_deep_as_their_text,
};
