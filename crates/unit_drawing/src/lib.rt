//! A unit for a reader: a drawing of its graphs for Graphviz, and what is noted of the edges that may
//! take, as comment lines.
#![tactic(auto)]

mod draw;
mod names;
mod notes;
mod put;

pub use draw::drawing;
pub use names::name_of;
pub use notes::add_notes;
pub use put::put_numbered;
