//! The data.
use flow_value::{Numbers, Seq, Shape};
use gapped::Gapped;
use if1_graph::Simple;
use step_code::{Cell, Collect, Counted, Written};

/// What fills a port of a node, or of the results of a graph.
#[derive(Clone, Copy)]
pub enum Feed {
    /// The input of the graph at this place, counted from 0.
    Input(u32),
    /// The cell so many behind the first one of the graph's nodes.
    Output(u32),
    /// The literal of this number.
    Literal(u32),
}

/// How what fills a port is handled. What fills a port of a compound node is copied or taken for its
/// parts, or lent to them.
#[derive(Clone, Copy)]
pub enum Handled {
    /// It is looked at.
    Looks,
    /// It is copied.
    Copies,
    /// It is taken.
    Takes,
}

/// A port, with what fills it.
#[derive(Clone, Copy)]
pub struct Port {
    /// What fills it.
    pub feed: Feed,
    /// How that is handled.
    pub handled: Handled,
}

/// The graphs of a loop, by their numbers.
#[derive(Clone, Copy)]
pub struct LoopParts {
    /// Gives the first loop values.
    pub init: u32,
    /// Tells whether there is a turn.
    pub test: u32,
    /// Gives the next loop values.
    pub body: u32,
    /// Gives the results, of what was collected.
    pub returns: u32,
}

/// What a node does. Graphs stand here by their numbers.
#[derive(Drop)]
pub enum Work {
    /// A simple node: what it does, what the types on its edges tell, what it writes and what it
    /// copies.
    Plain(Simple, Shape, Written, Counted),
    /// A call of a function.
    Call(u32),
    /// A Select: its selector and its alternatives.
    Select(u32, Numbers),
    /// A TagCase: the arm of each tag.
    TagCase(Numbers),
    /// A loop whose body comes before its first test.
    LoopA(LoopParts),
    /// A loop whose test comes first.
    LoopB(LoopParts),
    /// A ForAll: its generator, its body, its returns, and how many results its body has.
    ForAll(u32, u32, u32, u32),
}

/// A node.
#[derive(Drop)]
pub struct PlanNode {
    /// What it does.
    pub work: Work,
    /// How many outputs it has.
    pub width: u32,
    /// What fills its ports; of a Call those of the arguments. Of an RBuild or RReplace only those that
    /// are filled are kept.
    pub ins: Gapped<Port>,
}

/// A graph.
#[derive(Drop)]
pub struct PlanGraph {
    /// The nodes in their order.
    pub nodes: Seq<PlanNode>,
    /// The results.
    pub results: Seq<Port>,
    /// What it collects, if it is a returns.
    pub collects: Seq<Collect>,
    /// The number of the graph that does it on what was collected.
    pub refolded: u32,
}

/// What code is made of. The tables have a number for each graph.
#[derive(Drop)]
pub struct PlanData {
    /// The graphs.
    pub graphs: Seq<PlanGraph>,
    /// How many steps each takes.
    pub sizes: Numbers,
    /// How many cells each takes.
    pub extents: Numbers,
    /// At which place the code of each function begins.
    pub entries: Numbers,
    /// How many inputs each function has.
    pub params: Numbers,
    /// The literals; the first one is what an unfilled port has.
    pub literals: Seq<Cell>,
    /// Which outputs are counted where they are handed out.
    pub marks: Seq<bool>,
}
