//! How many results graphs have.
ghost use Rattle.std.specs.Prelude.{◌≡◌, All, AllPairs, drop};
ghost use Rattle.if1_graph.specs.declared.graph.Graph.TheViews.{out-Graph};
ghost use Rattle.if1_graph.specs.Normal.{Precedes};
ghost use Rattle.if1_graph.specs.Ports.{compound_outputs, most_results, results_at};
ghost use Rattle.if1_graph.specs.Units.{results};

use if1_graph::{Compound, Graph};
use if1_ports::{edges_into, greatest_port};

/// How many results a graph has.
pub fn results_of(graph: &Graph) -> u32
    requires { AllPairs Precedes (out-Graph graph.now).edges }
    ensures { result ≡ results graph.now }
{
    greatest_port(edges_into(graph.edges.as_slice(), 0))
}

/// How many results the graph at a place has, 0 where there is none.
pub fn results_at(graphs: &[Graph], place: usize) -> u32
    requires { All (λ g. AllPairs Precedes (out-Graph g).edges) graphs.now }
    ensures { result ≡ results_at graphs.now place }
{
    match graphs.get(place) {
        Some(graph) => results_of(graph),
        None => 0,
    }
}

fn most_results(graphs: &[Graph], from: usize) -> u32
    requires { All (λ g. AllPairs Precedes (out-Graph g).edges) graphs.now }
    ensures { result ≡ most_results (drop from graphs.now) }
{
    let mut most = 0;
    for i in from..graphs.len() {
        let results = results_of(&graphs[i]);
        if results > most {
            most = results;
        }
    }
    most
}

/// How many outputs a compound node with these graphs has.
pub fn compound_outputs(compound: Compound, graphs: &[Graph]) -> u32
    requires { All (λ g. AllPairs Precedes (out-Graph g).edges) graphs.now }
    ensures { result ≡ compound_outputs compound graphs.now }
{
    match compound {
        Compound::Select => most_results(graphs, 1),
        Compound::TagCase => most_results(graphs, 0),
        Compound::ForAll => results_at(graphs, 2),
        Compound::LoopA | Compound::LoopB => results_at(graphs, 3),
    }
}
