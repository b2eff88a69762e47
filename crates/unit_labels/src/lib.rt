//! The labels of a typed program: one walk over it meets whatever the lines of its graphs carry, and
//! enters their types; or the function is named at which these are too many.
#![tactic(auto)]

mod faults;
mod functions;
mod program;

pub use faults::TypesFault;
pub use program::labels_of;
