//! What is known of a node.
use gapped::Gapped;
use node_works::Task;
use port_feeds::Filled;

/// What is known of a node.
#[derive(Drop)]
pub struct NodeParts {
    /// What it does.
    pub task: Task,
    /// How many outputs it has.
    pub width: u32,
    /// What fills its ports, from port 1 on.
    pub ports: Gapped<Filled>,
    /// Whether its result is joined to others.
    pub joined: bool,
    /// The first of the marks of its outputs.
    pub marks: u32,
}
