//! What the ports of the graphs inside compound nodes depend on.
ghost use Rattle.std.specs.Prelude.{◌≡◌, All, AllPairs, drop};
ghost use Rattle.if1_graph.specs.Ports.{results_at, most_results};
ghost use Rattle.if1_graph.specs.Normal.{Precedes};
ghost use Rattle.if1_graph.specs.declared.graph.Graph.TheViews.{out-Graph};
ghost use Rattle.if1_ports.specs.Compound as spec;

use crate::into::results_of;
use if1_graph::{Compound, Graph, Part, part_at};

/// What the ports of the graphs in a compound node depend on of the node.
#[derive(Clone, Copy)]
pub struct Around {
    /// The operation.
    pub compound: Compound,
    /// The number of inputs of the node.
    pub width: u32,
    /// The number of results of its first graph.
    pub first: u32,
    /// The number of results of its second graph.
    pub second: u32,
    /// The most results of a graph.
    pub most: u32,
    /// The most results of a graph after the first.
    pub most_later: u32,
}

/// What the boundary of a graph must have.
#[derive(Clone, Copy)]
pub struct Bounds {
    /// How many inputs the graph has, where this is known.
    pub inputs: Option<u64>,
    /// How many results it must have.
    pub results: u32,
}

/// How many results the graph at a place has, 0 where there is none.
pub fn results_at(graphs: &[Graph], place: usize) -> u32
    requires { All (λ g. AllPairs Precedes (out-Graph g).edges) graphs.now }
    ensures { result ≡ results_at graphs.now place }
{
    match graphs.get(place) {
        Some(graph) => results_of(graph),
        None => 0,
    }
}

/// The most results of a graph from a place on.
pub fn most_results(graphs: &[Graph], from: usize) -> u32
    requires { All (λ g. AllPairs Precedes (out-Graph g).edges) graphs.now }
    ensures { result ≡ most_results (drop from graphs.now) }
{
    let mut most = 0;
    for i in from..graphs.len() {
        let results = results_of(&graphs[i]);
        if results > most {
            most = results;
        }
    }
    most
}

/// What the ports of the graphs in a node depend on of the node.
pub fn around_of(compound: Compound, width: u32, graphs: &[Graph]) -> Around
    requires { All (λ g. AllPairs Precedes (out-Graph g).edges) graphs.now }
    ensures { result ≡ spec.around_of compound width graphs.now }
{
    Around {
        compound,
        width,
        first: results_at(graphs, 0),
        second: results_at(graphs, 1),
        most: most_results(graphs, 0),
        most_later: most_results(graphs, 1),
    }
}

fn returned_inputs(around: Around) -> u64
    ensures { result ≡ spec.returned_inputs around.compound around }
{
    let some = u64::from(around.width) + u64::from(around.first);
    match around.compound {
        Compound::ForAll => some + u64::from(around.second),
        _ => some,
    }
}

fn inputs_in(around: Around, part: Part) -> u64
    ensures { result ≡ spec.inputs_in around part }
{
    match part {
        Part::Test | Part::Body => u64::from(around.width) + u64::from(around.first),
        Part::Returns => returned_inputs(around),
        _ => u64::from(around.width),
    }
}

fn body_results(around: Around, own: u32) -> u32
    ensures { result ≡ spec.body_results around.compound around own }
{
    match around.compound {
        Compound::ForAll => own,
        _ => around.first,
    }
}

fn results_in(around: Around, part: Part, own: u32) -> u32
    ensures { result ≡ spec.results_in around part own }
{
    match part {
        Part::Selector | Part::Test => 1,
        Part::Alternative => around.most_later,
        Part::Arm => around.most,
        Part::Generator => { if own == 0 { 1 } else { own } }
        Part::Body => body_results(around, own),
        Part::Initialization | Part::Returns => own,
    }
}

fn bounds_as(around: Around, part: Option<Part>, own: u32) -> Bounds
    ensures { result ≡ spec.bounds_as around part own }
{
    match part {
        Some(part) => Bounds {
            inputs: Some(inputs_in(around, part)),
            results: results_in(around, part, own),
        },
        None => Bounds {
            inputs: None,
            results: own,
        },
    }
}

/// What the boundary of a graph in a node must have, by its place among the node's graphs and by the
/// number of its own results. In a simple node, which may have none, nothing is known.
pub fn bounds_at(around: Option<Around>, place: usize, own: u32) -> Bounds
    ensures { result ≡ spec.bounds_at around place own }
{
    match around {
        Some(around) => bounds_as(around, part_at(around.compound, place), own),
        None => Bounds {
            inputs: None,
            results: own,
        },
    }
}
