//! The types of edges, literals and graphs of IF1 units.
#![tactic(auto)]

mod agree;
mod contents;
mod ends;
mod fed;
mod given;
mod known;
mod node;
mod site;
mod sites;
mod tables;
mod units;

pub use known::Known;
pub use tables::known_of;
pub use units::wrong_type;
