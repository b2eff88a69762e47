//! The names of nodes (IF1 manual M-170, simple nodes).
use if1_graph::{Simple, simple_of};
use unit_drawing::name_of;

/// The name of a simple node.
pub fn simple_name(row: Simple) -> &'static [u8] {
    for op in 100..156 {
        if simple_of(op) == Some(row) {
            return name_of(op);
        }
    }
    b"?"
}
