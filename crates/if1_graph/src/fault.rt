//! Why a text or a unit is refused.
ghost use Rattle.std.specs.Prelude.{◌≡◌};
ghost use Rattle.if1_graph.specs.declared.fault.If1Fault.TheVariants.{NoMemory};

use flow_value::NoMemory;
use thiserror::Error;

/// Why an IF1 text or its unit is refused. A line counts from 1; a graph is named by its number and
/// a node by its label, 0 for the boundary of the graph.
#[derive(Clone, Copy, Debug, PartialEq, Eq, Error)]
pub enum If1Fault {
    /// Fault 1: a line of another form, a label twice, or a literal that its type does not have.
    #[error("line {0} has another form")]
    BadLine(u32),
    /// Fault 2: an opcode, a type, a function or a reduction that is not known.
    #[error("line {0} names what is not known")]
    Unknown(u32),
    /// Fault 3: a type that holds reals or the wild type.
    #[error("line {0} has a type with reals")]
    Real(u32),
    /// Fault 4: the text ends inside a compound node.
    #[error("a compound node is not closed")]
    Unclosed,
    /// Fault 5: the node reaches itself along data edges.
    #[error("node {node} of graph {graph} reaches itself")]
    Cycle {
        graph: u32,
        node: u32,
    },
    /// Fault 6: the node's ports are not filled as the tables say.
    #[error("node {node} of graph {graph} has wrong ports")]
    Ports {
        graph: u32,
        node: u32,
    },
    /// Fault 7: an edge or literal into the node has a wrong type.
    #[error("node {node} of graph {graph} has a wrong type")]
    TypeOf {
        graph: u32,
        node: u32,
    },
    /// Fault 8: the marks of the port are not sound.
    #[error("port {port} of node {node} of graph {graph} may not take from {reader}")]
    Marks {
        graph: u32,
        node: u32,
        port: u32,
        reader: u32,
    },
    /// Fault 9: the line that passes a limit on nodes, types or levels.
    #[error("line {0} passes a limit")]
    TooMany(u32),
    /// Want of memory.
    #[error("no memory")]
    NoMemory,
}

impl From<NoMemory> for If1Fault {
    ghost from_gives = { λ _ e. e ≡ NoMemory };

    fn from(_e: NoMemory) -> If1Fault {
        If1Fault::NoMemory
    }
}
