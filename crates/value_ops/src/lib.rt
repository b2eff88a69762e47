//! What each operation on values gives.
#![tactic(auto)]

mod arrays;
mod catenate;
mod ends;
mod feed;
mod kinds;
mod limits;
mod listed;
mod makers;
mod operation;
mod places;
mod records;
mod rows;
mod scalars;
mod sizes;
mod values;

pub use operation::Operation;
pub use rows::apply;
