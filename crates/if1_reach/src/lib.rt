//! Which nodes of a graph come before which, along its data edges and ordering lists, and by which path.
#![tactic(auto)]

mod least;
mod nets;
mod paths;
mod ranks;
mod search;
mod users;

pub use least::sink;
pub use nets::{link_all, nets_of};
pub use paths::{Path, path};
pub use ranks::{Ranks, ranked};
pub use search::way;
pub use users::{PortUsers, note_edge, port_users, users_of};
