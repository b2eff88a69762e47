//! Graphs as they are made: nodes are added to the graph under way, graphs inside are opened and
//! shut, and a compound node closes them (IF1 manual M-170, compound nodes).
#![tactic(auto)]

mod closing;
mod keys;
mod made;
mod names;
mod wires;

pub use closing::{close_graph, close_graphs, close_wires};
pub use keys::Keys;
pub use made::{Around, Made};
pub use names::Names;
pub use wires::{carried_ports, copy_constant, copy_wire, one_wire, output, ports};
