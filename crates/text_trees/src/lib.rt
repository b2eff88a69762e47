//! Laws of the trees of texts: wherever the grammar asks for an item at least there is one, names
//! are names of the text, what stands for a written type are tokens that are a type, and the names
//! that come into force have levels of 32 bits (SISAL Language Reference Manual 1.2, syntax and
//! scope).
#![tactic(auto)]

mod laws;

pub use laws::{parts_of_the_spelled_are_spelled, what_tokens_spell_is_spelled};
