//! The nodes of the graphs of a unit as data, made of what each does, what fills its ports and what is known of its outputs, and what a
//! returns collects for them.
#![tactic(auto)]

mod adding;
mod collected;
mod laws;
mod nodes;
mod parts;
mod ports;
mod told;

pub use adding::add_node;
pub use laws::nothing_is_made_of_no_vertices;
pub use node_works::{Task, UnitTables, output_types, tables_of, task_of, widths_of};
pub use parts::NodeParts;
pub use port_feeds::{Filled, ports_of};
