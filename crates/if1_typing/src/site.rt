//! Where a graph stands, as far as the types of its boundary depend on it.
use if1_graph::{Compound, Part};

/// The type of the contents of all tags that lead to an arm.
#[derive(Clone, Copy, Debug, PartialEq, Eq)]
pub enum Content {
    /// There is no tag.
    Any,
    /// This type.
    One(u32),
    /// There is none, since two differ or one has no type.
    Never,
}

/// What the graphs in a compound node depend on of the node.
#[derive(Clone, Copy)]
pub struct Frame {
    /// The operation.
    pub compound: Compound,
    /// The number of inputs of the node.
    pub width: u32,
    /// The number of results of its first graph.
    pub first: u32,
    /// The list of the tags of the union at its port 1.
    pub tags: Option<u32>,
}

/// What a graph in a compound node is for.
#[derive(Clone, Copy)]
pub struct Inner {
    /// The operation of the node.
    pub compound: Compound,
    /// What the graph is for.
    pub part: Part,
    /// The number of inputs of the node.
    pub width: u32,
    /// The number of results of its first graph.
    pub first: u32,
    /// The type of the content, in an arm.
    pub content: Content,
}

/// Where a graph stands.
#[derive(Clone, Copy)]
pub enum Site {
    /// It is a function, whose type has this number.
    Function(u32),
    /// It is a part of a compound node.
    Part(Inner),
    /// It stands in a node that may not have it.
    Nowhere,
}
