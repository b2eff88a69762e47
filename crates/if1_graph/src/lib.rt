//! Units of IF1 dataflow graphs, each line of their text as a value, read and written, the table of their nodes,
//! and what makes a unit valid.
#![tactic(auto)]

mod fault;
mod graph;
mod kind;
mod laws;
mod line;
mod line_part;
mod lines;
mod lookup;
mod number;
mod op;
mod part;
mod pragma;
mod read;
mod row;
mod write;

pub use fault::If1Fault;
pub use graph::{
    Edge, EdgeList, Graph, GraphList, Imports, Node, NodeList, Origin, TypeEntry, TypeTable, Unit1,
};
pub use kind::{Basic, TypeKind, basic_of, kind_of};
pub use laws::{opening_is_spelled, read_is_spelled, text_is_read, written_is_read};
pub use line::{EntryForm, Line, entry_form};
pub use lines::next_line;
pub use lookup::{entry_of, node_of};
pub use op::{Compound, Grouping, Part, Reducer, Simple, compound_of, reducer_of, simple_of};
pub use part::{has_parts, part_at};
pub use read::read_line;
pub use row::{
    Gives, Rest, Use, Want, gives_of, is_consumed, is_strict, operand_of, operands_of, output_of,
    rest_of,
};
pub use write::{opening, write_close, write_line};
