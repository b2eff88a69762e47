//! How many steps and cells the graphs of a plan take and where its functions begin, by tables that
//! are filled from the last to the first.
#![tactic(auto)]

mod entries;
mod extents;
mod laws;
mod sizes;

pub use entries::entries_of;
pub use extents::extents_of;
pub use laws::{plans_are_sized_by_tables, tables_are_of_plans};
pub use sizes::{arms_total, plus, sizes_of};
