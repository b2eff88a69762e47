//! From a typed program to the text of its graphs: translated, marked and printed.
#![tactic(auto)]

mod call;
mod laws;

pub use call::{compile, marked};
pub use laws::{a_program_has_one_text, compiled_texts_are_read};
pub use translate::TranslateFault;
