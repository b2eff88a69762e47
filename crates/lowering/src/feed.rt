//! What fills the ports of nodes while a graph is made.
use flow_value::Text;
use typed_tree::Constant;

/// What fills a port while a graph is made (IF1 manual M-170, edges and literals): a literal, or a
/// port of this graph or of one around it.
#[derive(Drop)]
pub enum Feed {
    /// A literal.
    Literal(Constant),
    /// The name of a reduction.
    Named(Text),
    /// A port that is not filled.
    Absent,
    /// A port: by how many graphs around this one the graph is in which it is (0: this one), its node
    /// (0: the graph's own inputs; in a part of a compound node those after the inputs of that node),
    /// and its number from 1.
    Port(usize, usize, usize),
}

/// The type of what an edge carries.
#[derive(Clone, Copy, PartialEq, Eq, Hash)]
pub enum Carried {
    /// A value of a type, by its number in the table of the program.
    One(usize),
    /// A multiple of a type, by its number in the table of the program.
    Many(usize),
    /// The name of a function, by its number in the list of the program.
    Callee(u32),
}

/// What fills a port, with the type of what is carried.
#[derive(Drop)]
pub struct Wire {
    /// What fills the port.
    pub feed: Feed,
    /// The type of what is carried.
    pub ty: Carried,
}
