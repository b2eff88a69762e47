//! The marks that are made in a unit: which edges take, and the ordering edges for their sake.
#![tactic(auto)]

mod apply;
mod check;
mod graph;
mod judging;
mod laws;
mod order;
mod orders;
mod places;
mod why;
mod wish;

pub use apply::{set_lists, set_takes, with_marks};
pub use check::checked;
pub use graph::{GraphMarks, marks_in};
pub use judging::judge;
pub use laws::graphs_of_ready_units_are_markable;
pub use order::{are_before, clear, enter, reordered, weigh_users};
pub use orders::order_users;
pub use places::{blocking, is_twice, other_users, places_of, the_place};
pub use why::Why;
pub use wish::wished;
