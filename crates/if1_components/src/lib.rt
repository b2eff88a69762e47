//! Which places lead to each other along links: the strongly connected components of a graph.
#![tactic(auto)]

mod backward;
mod colors;
mod parts;
mod tour;

pub use parts::components;
