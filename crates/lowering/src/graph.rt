//! Graphs as they are made.
use crate::feed::{Carried, Wire};
use flow_value::{Numbers, Seq};
use if1_graph::{Compound, Simple};

/// What a node does.
#[derive(Drop)]
pub enum Action {
    /// A row of the table of simple nodes.
    Row(Simple),
    /// A call of a function, by its number in the list of the program.
    Call(u32),
    /// A compound node on graphs by their numbers, with its association list, and how many results
    /// its body and it have.
    Whole(Compound, Seq<usize>, Numbers, usize, usize),
}

/// A node, with what fills its ports from 1 on; those of a call stand behind the name of the
/// function.
#[derive(Drop)]
pub struct LoweredNode {
    /// What it does.
    pub action: Action,
    /// What fills its ports.
    pub ins: Seq<Wire>,
}

/// A graph, whose ports are its own.
#[derive(Drop)]
pub struct LoweredGraph {
    /// Its nodes, in the order of their labels, from 1.
    pub nodes: Seq<LoweredNode>,
    /// What fills the ports of its results.
    pub results: Seq<Wire>,
}

/// What a phrase becomes.
#[derive(Drop)]
pub struct Lowered {
    /// Nodes behind those that stand in the graph.
    pub nodes: Seq<LoweredNode>,
    /// The graphs inside of them, in the order of their numbers.
    pub graphs: Seq<LoweredGraph>,
    /// What the lines of these nodes carry, in the order of the text.
    pub lines: Seq<Carried>,
    /// What the values of the phrase are.
    pub values: Seq<Wire>,
}
