//! What code is made of, as data: the nodes of each graph in their order, with what fills their
//! ports and where it stands, what a returns collects, and how many steps and cells graphs take.
#![tactic(auto)]

mod plan;
mod seek;

pub use plan::{Feed, Handled, LoopParts, PlanData, PlanGraph, PlanNode, Port, Work};
pub use seek::{collects_in, nodes_in, number_at, refolded_in, results_in};
