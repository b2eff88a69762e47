//! The unit of a text within the limits is ready. Laws.
#![tactic(auto)]

mod laws;

pub use fitting_texts::programs_of_texts_fit;
pub use laws::{programs_of_texts_are_covered, units_of_texts_are_ready};
