//! Laws of what the program answers: words and the bytes of a text have one answer, and where they have a result it
//! is printed, unless memory is wanting or the outside fails; and `run` of a SISAL text prints the values that the
//! source gives, by the definition of record (SISAL Language Reference Manual 1.2).
#![tactic(auto)]

mod laws;
mod source_laws;

pub use laws::{
    a_run_answers_once, graphs_answer_once, results_are_printed, what_if1_prints_stays,
    words_and_texts_have_one_answer,
};
pub use source_laws::{
    runs_of_texts_print_what_the_source_gives, sources_within_the_limits_are_printed,
};
