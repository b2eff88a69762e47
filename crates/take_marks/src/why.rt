//! What is noted of an edge.
use if1_reach::Path;

/// Whether an edge takes, and why not.
#[derive(Drop)]
pub enum Why {
    /// It is no consuming edge from an owned port.
    Kept,
    /// It takes.
    Taken,
    /// Another edge leads from its port to the same node.
    Twice,
    /// Its node comes before another user of the port: the labels from the node to that user, 0 for the
    /// boundary.
    Blocked(Path),
}
