//! What a run of a unit begins with: its entry, the functions that it lacks, and whether it has marks.
#![tactic(auto)]

mod find;
mod lacking;
mod marks;

pub use find::entry;
pub use lacking::first_lacking;
pub use marks::has_marks;
