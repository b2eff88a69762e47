//! Orders of the nodes of a graph along its data edges, and nodes that reach themselves.
#![tactic(auto)]

mod arranged;
mod circles;
mod feeders;
mod rising;
mod walk;

pub use arranged::{NodeOrder, labelled, order};
pub use circles::{ports_link, wrong_order};
pub use feeders::{feeders_by, join, labels_of, place_of};
pub use walk::{Places, Sorted, sort};
