//! Whether the type of an edge is one that the table of nodes wants, by numbers of types.
#![tactic(auto)]

mod kind;
mod laws;
mod views;
mod wants;

pub use laws::fits_decides;
pub use views::{are_same, carried_at, edge_at, many_of, tags_of, value_of};
pub use wants::fits;
