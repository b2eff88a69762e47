//! The unit of IF1 graphs of lowered graphs: nodes with the graphs inside of them, edges, types and
//! functions of other texts (IF1 manual M-170, text form).
#![tactic(auto)]

mod codes;
mod edges;
mod graphs;
mod literals;
mod maker;
mod nodes;
mod unit;

pub use unit::unit_of;
