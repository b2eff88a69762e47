//! What a node does.
use if1_graph::{Compound, Simple};

/// What a node does, as a compound node or as a simple one.
#[derive(Clone, Copy)]
pub struct Doing {
    /// As a compound node.
    pub compound: Option<Compound>,
    /// As a simple node.
    pub simple: Option<Simple>,
}
