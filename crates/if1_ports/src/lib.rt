//! The ports of the nodes and graphs of IF1 units.
#![tactic(auto)]

mod around;
mod compound;
mod ends;
mod fed;
mod into;
mod names;
mod outline;
mod outlines;
mod rows;
mod simple;
mod units;

pub use around::{Around, Bounds, results_at};
pub use fed::{Fed, greatest_port};
pub use if1_order::labels_of;
pub use into::edges_into;
pub use names::{Names, names_of};
pub use outline::{Outline, arguments_in, fields_in, is_integer, is_stream, results_in, tags_in};
pub use outlines::outlines_of;
pub use rows::Outlines;
pub use units::wrong_ports;
