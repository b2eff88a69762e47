//! Laws that a unit has one meaning, whatever its typed tree's table of types, and that words have
//! one answer of a program (SISAL Language Reference Manual 1.2, expressions and programs).
#![tactic(auto)]

mod laws;

pub use laws::{
    a_program_answers_once, a_unit_has_one_meaning, numbers_of_types_mean_nothing,
    typed_trees_answer_alike, words_are_read_or_refused,
};
