//! Edges that leave one port of a node.
ghost use Rattle.std.specs.Prelude.{◌≡◌, MatchBool, MatchOption};
ghost use Rattle.std.specs.Option.{option_copied};
ghost use Rattle.if1_graph.specs.declared.graph.Graph.TheViews.{out-Graph};
ghost use Rattle.if1_typing.specs.Tables.{table_of};
ghost use Rattle.if1_typing.specs.Agree.{AreAgreed, Disagrees};
ghost use Rattle.if1_typing.specs.Given.{AreNoted, IsApart, IsAsNoted, is_noted_as};

use crate::given::Given;
use crate::known::Known;
use if1_graph::{Edge, Graph, Origin};

/// Whether a note is of this number, where there is one.
fn is_noted_as(noted: Option<&(u32, bool)>, number: u32) -> bool
    ensures { result ≡ is_noted_as (option_copied noted.entry) number }
{
    match noted {
        Some(noted) => noted.0 == number,
        None => true,
    }
}

/// Whether an edge has the type that is noted of the port from which it comes.
fn agrees(given: &Given, known: &Known, edge: &Edge) -> bool
    ensures { MatchBool result (IsAsNoted (table_of known.now) given.now.map edge.now) (IsApart (table_of known.now) given.now.map edge.now) }
{
    match &edge.from {
        Origin::Port(node, port) if *node != 0 => is_noted_as(
            given.map.get(&(*node, *port)),
            known.number(edge.ty),
        ),
        _ => true,
    }
}

/// The node into which an edge leads whose type is another than that of an edge from the same port, by
/// what is noted of the ports.
pub fn disagreeing(known: &Known, graph: &Graph, given: &Given) -> Option<u32>
    requires { AreNoted (table_of known.now) graph.now given.now }
    ensures { MatchOption result (AreAgreed (table_of known.now) (out-Graph graph.now).edges) (Disagrees (table_of known.now) (out-Graph graph.now).edges) }
{
    for edge in graph.edges.as_slice() {
        if !agrees(given, known, edge) {
            return Some(edge.node);
        }
    }
    None
}
