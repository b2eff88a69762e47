//! What a node has by the edges that lead into it, by number.
ghost use Rattle.std.specs.Prelude.{◌≡◌, AllPairs, Some};
ghost use Rattle.std.specs.Option.{option_copied};
ghost use Rattle.if1_graph.specs.Units.{edges_into};
ghost use Rattle.if1_graph.specs.Normal.{Precedes};
ghost use Rattle.if1_graph.specs.declared.graph.Graph.TheViews.{out-Graph};
ghost use Rattle.if1_ports.specs.Fed as fed;
ghost use Rattle.if1_typing.specs.Tables.{table_of};
ghost use Rattle.if1_typing.specs.Fed as spec;
ghost use Rattle.if1_fits.specs.Views.{AreUp};
ghost use Rattle.if1_typing.specs.Fed.{AreOrdered};

use crate::known::Known;
use flow_value::Text;
use if1_fits::{carried_at, edge_at, fits};
use if1_graph::{Edge, Graph, Origin, Reducer, Want, reducer_of};
use if1_ports::edges_into;

/// The number of what a port carries, 0 where nothing is carried. Takes the time of a search.
pub fn carried_in(known: &Known, edges: &[Edge], port: u32) -> u32
    requires { AreUp edges.now }
    ensures { result ≡ spec.carried_in (table_of known.now) edges.now port }
{
    carried_at(&known.sorts, edges, port)
}

/// The edges into a node of a graph, or into its boundary for 0, by port.
pub fn edges_of(graph: &Graph, label: u32) -> &[Edge]
    requires { AllPairs Precedes (out-Graph graph.now).edges }
    ensures are { result.now ≡ edges_into graph.now label }
    ensures up { AreUp result.now }
{
    edges_into(graph.edges.as_slice(), label)
}

fn text_of(edge: Option<&Edge>) -> Option<&Text>
    ensures { option_copied result ≡ fed.text_by (option_copied edge.entry) }
{
    match &edge?.from {
        Origin::Lit(text) => Some(text),
        Origin::Port(_, _) => None,
    }
}

/// The number of the type of the function that the literal at port 1 names, 0 where there is none. Takes
/// the time to read the name.
pub fn callee_in(known: &Known, edges: &[Edge]) -> u32
    requires { AreUp edges.now }
    ensures { result ≡ spec.callee_in (table_of known.now) edges.now }
{
    match text_of(edge_at(edges, 1)) {
        Some(text) => known.callee(text.as_slice()),
        None => 0,
    }
}

/// The reduction that the literal at port 1 names.
fn named_in(edges: &[Edge]) -> Option<Reducer>
    requires { AreUp edges.now }
    ensures { result ≡ spec.named_in edges.now }
{
    match text_of(edge_at(edges, 1)) {
        Some(text) => reducer_of(text.as_slice()),
        None => None,
    }
}

/// Whether the type of a number is one that the table of simple nodes wants, at a node into which these
/// edges lead and whose literal names a function of this type.
pub fn fits_in(known: &Known, edges: &[Edge], callee: u32, want: Want, number: u32) -> bool
    requires up { AreUp edges.now }
    requires callee { callee ≡ spec.callee_in (table_of known.now) edges.now }
    ensures { result ≡ spec.fits_in (table_of known.now) edges.now want number }
{
    fits(&known.sorts, edges, callee, named_in(edges), want, number)
}

/// The number of the result of a graph at a port, 0 where there is none.
fn carried_out(known: &Known, graph: &Graph, port: u32) -> u32
    requires { AllPairs Precedes (out-Graph graph.now).edges }
    ensures { result ≡ spec.carried_out (table_of known.now) (Some graph.now) port }
{
    carried_in(known, edges_of(graph, 0), port)
}

/// The number of the result at a port of the graph at a place, 0 where there is none.
pub fn result_number(known: &Known, graphs: &[Graph], place: usize, port: u32) -> u32
    requires { AreOrdered graphs.now }
    ensures { result ≡ spec.result_number (table_of known.now) graphs.now place port }
{
    match graphs.get(place) {
        Some(graph) => carried_out(known, graph, port),
        None => 0,
    }
}
