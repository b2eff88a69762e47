//! Whether the marks that a unit brings are sound.
#![tactic(auto)]

mod graphs;
mod late;
mod least;
mod lists;
mod marks;
mod takers;

pub use graphs::all_graphs;
pub use lists::first_wrong_entry;
pub use marks::{MarkFault, check_marks};
pub use takers::{BadTaker, first_bad_taker};
