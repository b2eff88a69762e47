//! Marks are made in a unit: which updates may be done in place.
#![tactic(auto)]

mod begin;
mod laws;
mod marked;
mod note;
mod walk;

pub use laws::marks_made_keep_units_ready;
pub use marked::{Marked, mark};
pub use note::Note;
