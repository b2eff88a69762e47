//! What fills the ports of nodes and graphs, and which port lends an input, of units that are ready to run.
#![tactic(auto)]

mod edges;
mod filled;
mod flags;
mod laws;
mod lenders;
mod literals;

pub use filled::{Filled, ports_of};
pub use laws::lenders_feed_operands;
pub use lenders::{Lender, edge_lender, input_lender};
