//! What leaves the nodes of a graph: the type that each port gives is looked at once, however many edges
//! leave it.
ghost use Rattle.std.specs.Prelude.{◌≡◌, ◌==◌, Bool, List, [], ◌∷◌, ◌++◌, Some, None, AllPairs, map, IfOk, OnOk};
ghost use Rattle.if1_graph.specs.Normal.{Precedes};
ghost use Rattle.if1_graph.specs.Typing.{giving_part};
ghost use Rattle.if1_graph.specs.Units.{label_of, node_at};
ghost use Rattle.if1_graph.specs.declared.graph.Edge.{Edge};
ghost use Rattle.if1_graph.specs.declared.graph.Graph.TheViews.{out-Graph};
ghost use Rattle.if1_graph.specs.declared.graph.Node.{out-Node};
ghost use Rattle.if1_fits.specs.Views.{AreUp};
ghost use Rattle.if1_typing.specs.Tables.{table_of};
ghost use Rattle.if1_typing.specs.Tables as table;
ghost use Rattle.if1_typing.specs.Fed.{AreOrdered, callee_in as callee_by};
ghost use Rattle.if1_typing.specs.Ends as ends;
ghost use Rattle.if1_typing.specs.Ends.{IsLaid};
ghost use Rattle.if1_typing.specs.Given as spec;
ghost use Rattle.if1_typing.specs.Given.{AreCallees, AreSeen, IsSound, AreNoted};

use crate::fed::{callee_in, edges_of, fits_in, result_number};
use crate::known::Known;
use flow_value::{NoMemory, Numbers, Seq};
use if1_graph::{
    Compound, Edge, Graph, Node, Origin, Simple, Want, compound_of, node_of, output_of, simple_of,
};
use if1_order::labels_of;
use if1_types::number_at;
use indexmap::IndexMap;
use std::alloc::Global;

/// The types of the functions that the literals at port 1 of nodes name.
#[derive(Drop)]
pub struct Callees {
    /// The labels of the nodes, rising.
    pub labels: Numbers,
    /// The number of the type for each, 0 where there is none.
    pub numbers: Numbers,
}

/// What is known of the outputs of the nodes of a graph.
#[derive(Drop)]
pub struct Given {
    /// The functions that the nodes name.
    pub callees: Callees,
    /// By node and port the number of a type, and whether the port gives it.
    pub map: IndexMap<(u32, u32), (u32, bool)>,
}

fn callee_into(known: &Known, graph: &Graph, label: u32) -> u32
    requires { AllPairs Precedes (out-Graph graph.now).edges }
    ensures { result ≡ spec.callee_at (table_of known.now) graph.now label }
{
    callee_in(known, edges_of(graph, label))
}

fn numbers_of(alloc: Global, known: &Known, graph: &Graph) -> Result<Numbers, NoMemory>
    requires { AllPairs Precedes (out-Graph graph.now).edges }
    ensures { IfOk result (λ ns. ns ≡ map (λ n. spec.callee_at (table_of known.now) graph.now (label_of n)) (out-Graph graph.now).nodes) }
{
    let mut numbers = Seq::with_room(alloc, graph.nodes.len())?;
    for node in graph.nodes.as_slice() {
        numbers.add(callee_into(known, graph, node.label))?;
    }
    Ok(numbers)
}

fn callees_of(alloc: Global, known: &Known, graph: &Graph) -> Result<Callees, NoMemory>
    requires { AllPairs Precedes (out-Graph graph.now).edges }
    ensures { IfOk result (AreCallees (table_of known.now) graph.now) }
{
    let labels = labels_of(alloc, graph.nodes.as_slice())?;
    let numbers = numbers_of(alloc, known, graph)?;
    Ok(Callees { labels, numbers })
}

/// The graph in a compound node whose results are the node's outputs.
fn giving_part(compound: Compound) -> usize
    ensures { result ≡ giving_part compound }
{
    match compound {
        Compound::TagCase => 0,
        Compound::Select => 1,
        Compound::ForAll => 2,
        Compound::LoopA | Compound::LoopB => 3,
    }
}

fn output_as(known: &Known, edges: &[Edge], callee: u32, want: Option<Want>, number: u32) -> bool
    requires up { AreUp edges.now }
    requires callee { callee ≡ callee_by (table_of known.now) edges.now }
    ensures { result ≡ ends.output_as (table_of known.now) edges.now want number }
{
    match want {
        Some(want) => fits_in(known, edges, callee, want, number),
        None => false,
    }
}

fn simple_output_fits(
    known: &Known,
    graph: &Graph,
    node: &Node,
    callee: u32,
    simple: Option<Simple>,
    port: u32,
    number: u32,
) -> bool
    requires order { AllPairs Precedes (out-Graph graph.now).edges }
    requires callee { callee ≡ spec.callee_at (table_of known.now) graph.now (label_of node.now) }
    ensures { result ≡ ends.output_fits (table_of known.now) graph.now node.now None simple port number }
{
    let edges = edges_of(graph, node.label);
    match simple {
        Some(op) => output_as(known, edges, callee, output_of(op, port), number),
        None => false,
    }
}

/// Whether the type of a number is that of an output of a node.
fn output_fits(
    known: &Known,
    graph: &Graph,
    node: &Node,
    callee: u32,
    port: u32,
    number: u32,
) -> bool
    requires order { AllPairs Precedes (out-Graph graph.now).edges }
    requires inside { AreOrdered (out-Node node.now).subs }
    requires callee { callee ≡ spec.callee_at (table_of known.now) graph.now (label_of node.now) }
    ensures { result ≡ ends.node_gives (table_of known.now) graph.now (Some node.now) port number }
{
    match compound_of(node.op) {
        Some(compound) => {
            result_number(known, node.subs.as_slice(), giving_part(compound), port) == number
        }
        None => simple_output_fits(known, graph, node, callee, simple_of(node.op), port, number),
    }
}

fn node_gives(
    known: &Known,
    graph: &Graph,
    callees: &Callees,
    label: u32,
    port: u32,
    number: u32,
) -> bool
    requires laid { IsLaid graph.now }
    requires callees { AreCallees (table_of known.now) graph.now callees.now }
    ensures { result ≡ spec.port_gives (table_of known.now) graph.now label port number }
{
    let callee = number_at(callees.labels.as_slice(), callees.numbers.as_slice(), label);
    match node_of(graph.nodes.as_slice(), label) {
        Some(node) => output_fits(known, graph, node, callee, port, number),
        None => false,
    }
}

/// Notes whether a port gives the type of a number, where nothing is noted at the port.
fn note(
    known: &Known,
    graph: &Graph,
    callees: &Callees,
    map: &mut IndexMap<(u32, u32), (u32, bool)>,
    node: u32,
    port: u32,
    number: u32,
) -> Result<(), NoMemory>
    requires laid { IsLaid graph.now }
    requires callees { AreCallees (table_of known.now) graph.now callees.now }
    requires sound { IsSound (table_of known.now) graph.now map.old }
    ensures sound { OnOk result (IsSound (table_of known.now) graph.now map.new) }
    ensures seen { OnOk result ((es : List Edge) (e : Edge) → e.from ≡ Origin.Port node port → table.number (table_of known.now) e.ty ≡ number → AreSeen (table_of known.now) es map.old → AreSeen (table_of known.now) (es ++ e ∷ []) map.new) }
{
    if map.contains_key(&(node, port)) {
        return Ok(());
    }
    let gives = node_gives(known, graph, callees, node, port, number);
    map.insert((node, port), (number, gives))?;
    Ok(())
}

fn note_edge(
    known: &Known,
    graph: &Graph,
    callees: &Callees,
    map: &mut IndexMap<(u32, u32), (u32, bool)>,
    edge: &Edge,
) -> Result<(), NoMemory>
    requires laid { IsLaid graph.now }
    requires callees { AreCallees (table_of known.now) graph.now callees.now }
    requires sound { IsSound (table_of known.now) graph.now map.old }
    ensures sound { OnOk result (IsSound (table_of known.now) graph.now map.new) }
    ensures seen { OnOk result ((es : List Edge) → AreSeen (table_of known.now) es map.old → AreSeen (table_of known.now) (es ++ edge.now ∷ []) map.new) }
{
    match &edge.from {
        Origin::Port(node, port) if *node != 0 => note(
            known,
            graph,
            callees,
            map,
            *node,
            *port,
            known.number(edge.ty),
        ),
        _ => Ok(()),
    }
}

fn notes_of(
    alloc: Global,
    known: &Known,
    graph: &Graph,
    callees: &Callees,
) -> Result<IndexMap<(u32, u32), (u32, bool)>, NoMemory>
    requires laid { IsLaid graph.now }
    requires callees { AreCallees (table_of known.now) graph.now callees.now }
    ensures sound { IfOk result (IsSound (table_of known.now) graph.now) }
    ensures seen { IfOk result (AreSeen (table_of known.now) (out-Graph graph.now).edges) }
{
    let mut map = IndexMap::new(alloc);
    for edge in graph.edges.as_slice() {
        note_edge(known, graph, callees, &mut map, edge)?;
    }
    Ok(map)
}

/// What is known of the outputs of the nodes of a graph: of each port, whether it gives the type of the
/// first edge that leaves it.
pub fn given_of(alloc: Global, known: &Known, graph: &Graph) -> Result<Given, NoMemory>
    requires { IsLaid graph.now }
    ensures { IfOk result (AreNoted (table_of known.now) graph.now) }
{
    let callees = callees_of(alloc, known, graph)?;
    let map = notes_of(alloc, known, graph, &callees)?;
    Ok(Given { callees, map })
}

/// What is noted of a port and the type of a number.
pub fn noted(given: &Given, node: u32, port: u32, number: u32) -> Option<bool>
    ensures { (b : Bool) → result ≡ Some b → spec.noted_at given.now.map node port ≡ Some (number, b) }
{
    match given.map.get(&(node, port)) {
        Some(noted) if noted.0 == number => Some(noted.1),
        _ => None,
    }
}

/// Whether a port of a node gives the type of a number.
pub fn gives(known: &Known, graph: &Graph, given: &Given, node: u32, port: u32, number: u32) -> bool
    requires laid { IsLaid graph.now }
    requires noted { AreNoted (table_of known.now) graph.now given.now }
    ensures { result ≡ spec.port_gives (table_of known.now) graph.now node port number }
{
    match noted(given, node, port, number) {
        Some(gives) => gives,
        None => node_gives(known, graph, &given.callees, node, port, number),
    }
}
