//! What is noted of the edges that may take.
ghost use Rattle.std.specs.Prelude.{◌≡◌, ◌++◌, ◌∷◌, [], OnOk};
ghost use Rattle.mark_units.specs.Notes.{is_kept, one_note, noted};

use flow_value::{NoMemory, Seq};
use if1_graph::Edge;
use take_marks::Why;

/// What is noted of an edge that may take.
#[derive(Drop)]
pub struct Note {
    /// The number of its graph.
    pub graph: u32,
    /// The node to which it leads, 0 for the boundary.
    pub node: u32,
    /// The port of the node.
    pub port: u32,
    /// Whether it takes, and why not.
    pub why: Why,
}

/// A list of notes.
pub type Notes = Seq<Note>;

fn is_kept(why: &Why) -> bool
    ensures { result ≡ is_kept why.now }
{
    matches!(why, Why::Kept)
}

fn add_note(notes: &mut Notes, graph: u32, edge: &Edge, why: Why) -> Result<(), NoMemory>
    ensures { OnOk result (notes.new ≡ notes.old ++ one_note graph edge.now why) }
{
    if is_kept(&why) {
        return Ok(());
    }
    notes.add(Note {
        graph,
        node: edge.node,
        port: edge.port,
        why,
    })
}

/// Adds what is noted of the edges of a graph that may take.
pub fn add_notes(
    notes: &mut Notes,
    graph: u32,
    edges: &[Edge],
    whys: Seq<Why>,
) -> Result<(), NoMemory>
    ensures { OnOk result (notes.new ≡ notes.old ++ noted graph edges.now whys) }
{
    let mut rest = whys.into_vec().into_iter();
    for edge in edges {
        let Some(why) = rest.next() else {
            return Ok(());
        };
        add_note(notes, graph, edge, why)?;
    }
    Ok(())
}
