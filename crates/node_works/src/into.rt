//! What leads into the first port of a node.
ghost use Rattle.std.specs.Prelude.{◌≡◌, AllPairs};
ghost use Rattle.std.specs.Option.{option_copied};
ghost use Rattle.if1_graph.specs.declared.graph.Graph.TheViews.{out-Graph};
ghost use Rattle.if1_graph.specs.declared.graph.Unit1.{Unit1};
ghost use Rattle.if1_graph.specs.Normal.{Precedes};
ghost use Rattle.if1_graph.specs.Ports.{carried, text_of};
ghost use Rattle.if1_graph.specs.Units.{edge_into};
ghost use Rattle.if1_ports.specs.Fed.{first_of};
ghost use Rattle.if1_ports.specs.Outlines.{outline_of};
ghost use Rattle.node_works.specs.Tables.{AreTablesOf, callee_at, named_in};

use crate::functions::{Callee, function_in};
use crate::tables::UnitTables;
use if1_graph::{Edge, Graph, Origin};
use if1_ports::{Outline, edges_into};

fn first_of(edges: &[Edge]) -> Option<&Edge>
    ensures { option_copied result ≡ first_of edges.now }
{
    for edge in edges {
        if edge.port == 1 {
            return Some(edge);
        }
    }
    None
}

fn first_into(graph: &Graph, label: u32) -> Option<&Edge>
    requires { AllPairs Precedes (out-Graph graph.now).edges }
    ensures { option_copied result ≡ edge_into graph.now label 1 }
{
    first_of(edges_into(graph.edges.as_slice(), label))
}

/// What port 1 of a node carries.
pub fn carried_at(tables: &UnitTables, graph: &Graph, label: u32) -> Outline
    requires { AllPairs Precedes (out-Graph graph.now).edges }
    ensures { (u : Unit1) → AreTablesOf u tables.now → result ≡ outline_of (carried u graph.now label 1) }
{
    match first_into(graph, label) {
        Some(edge) => tables.types.outline(edge.ty),
        None => Outline::Nothing,
    }
}

fn named_by(tables: &UnitTables, from: &Origin) -> Option<Callee>
    ensures { result ≡ named_in tables.now (text_of from.now) }
{
    match from {
        Origin::Port(_, _) => None,
        Origin::Lit(text) => function_in(&tables.functions, text.as_slice()),
    }
}

/// The function that the literal at port 1 of a node names.
pub fn callee_at(tables: &UnitTables, graph: &Graph, label: u32) -> Option<Callee>
    requires { AllPairs Precedes (out-Graph graph.now).edges }
    ensures { (u : Unit1) → AreTablesOf u tables.now → result ≡ callee_at u.graphs graph.now label }
{
    match first_into(graph, label) {
        Some(edge) => named_by(tables, &edge.from),
        None => None,
    }
}
