//! How much is lowered, by numbers that are kept up to the greatest of 128 bits.

/// How much a phrase becomes.
#[derive(Clone, Copy, Debug, PartialEq, Eq)]
pub struct Sizes {
    /// Nodes that it adds to its graph.
    pub nodes: u128,
    /// Graphs inside of them.
    pub graphs: u128,
    /// The most nodes of one of these graphs.
    pub largest: u128,
    /// The ports of all these nodes, and the results of these graphs.
    pub ports: u128,
    /// Its values.
    pub values: u128,
}
