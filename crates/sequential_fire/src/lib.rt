//! Steps of the machine of one worker that fire simple nodes.
#![tactic(auto)]

mod changing;
mod counting;
mod elements;
mod firing;
mod fresh;
mod given;
mod kept;
mod loaded;
mod making;
mod outputs;
mod pairs;
mod parts;
mod ranges;
mod records;
mod routes;
mod same;
mod sizes;
mod sparse;
mod streams;
mod summing;
mod taking;
mod updating;

pub use elements::element;
pub use firing::fire_lent;
pub use loaded::fire_loaded;
pub use routes::fire;
pub use sparse::fire_sparse;
pub use updating::{Update, fire_update, replace};
