//! The graphs of compound nodes by their numbers.
ghost use Rattle.std.specs.Prelude.{◌≡◌, All, AllPairs, drop, map, IfOk};
ghost use Rattle.if1_graph.specs.declared.graph.Graph.TheViews.{out-Graph};
ghost use Rattle.if1_graph.specs.Normal.{Precedes};
ghost use Rattle.if1_graph.specs.Ports.{compound_outputs};
ghost use Rattle.graph_meaning.specs.Demand as demand;
ghost use Rattle.graph_meaning.specs.Networks.{form_of, part};
ghost use Rattle.plan_data.specs.Parts.{kind_of};
ghost use Rattle.node_works.specs.Tasks.{IsCallOrWhole};

use crate::results::results_at;
use flow_value::{NoMemory, Numbers, Seq};
use if1_graph::{Compound, Graph};
use plan_data::{LoopParts, Work};
use std::alloc::Global;

fn part(graphs: &[Graph], place: usize) -> u32
    ensures { result ≡ part graphs.now place }
{
    match graphs.get(place) {
        Some(graph) => graph.number,
        None => 0,
    }
}

fn numbers_of(alloc: Global, graphs: &[Graph]) -> Result<Numbers, NoMemory>
    ensures { IfOk result (λ ns. ns ≡ map (λ g. (out-Graph g).number) graphs.now) }
{
    let mut numbers = Seq::with_room(alloc, graphs.len())?;
    for graph in graphs {
        numbers.add(graph.number)?;
    }
    Ok(numbers)
}

// those behind the selector
fn alternatives(alloc: Global, graphs: &[Graph]) -> Result<Numbers, NoMemory>
    ensures { IfOk result (λ ns. ns ≡ map (λ g. (out-Graph g).number) (drop 1 graphs.now)) }
{
    if graphs.is_empty() {
        return Ok(Seq::new(alloc));
    }
    numbers_of(alloc, &graphs[1..])
}

fn arms(alloc: Global, graphs: &[Graph], places: &[u32]) -> Result<Numbers, NoMemory>
    ensures { IfOk result (λ ns. ns ≡ map (part graphs.now) places.now) }
{
    let mut numbers = Seq::with_room(alloc, places.len())?;
    for place in places {
        numbers.add(part(graphs, *place as usize))?;
    }
    Ok(numbers)
}

fn loop_parts(graphs: &[Graph]) -> LoopParts
    ensures init { result.init ≡ part graphs.now 0 }
    ensures test { result.test ≡ part graphs.now 1 }
    ensures body { result.body ≡ part graphs.now 2 }
    ensures returns { result.returns ≡ part graphs.now 3 }
{
    LoopParts {
        init: part(graphs, 0),
        test: part(graphs, 1),
        body: part(graphs, 2),
        returns: part(graphs, 3),
    }
}

/// What a compound node with these graphs and this association list does.
pub fn work_of(
    alloc: Global,
    compound: Compound,
    graphs: &[Graph],
    list: &[u32],
) -> Result<Work, NoMemory>
    requires { All (λ g. AllPairs Precedes (out-Graph g).edges) graphs.now }
    ensures kind { IfOk result (λ w. demand.Whole (form_of compound graphs.now list.now) ≡ kind_of w (compound_outputs compound graphs.now)) }
    ensures whole { IfOk result IsCallOrWhole }
{
    let work = match compound {
        Compound::Select => Work::Select(part(graphs, 0), alternatives(alloc, graphs)?),
        Compound::TagCase => Work::TagCase(arms(alloc, graphs, list)?),
        Compound::LoopA => Work::LoopA(loop_parts(graphs)),
        Compound::LoopB => Work::LoopB(loop_parts(graphs)),
        Compound::ForAll => Work::ForAll(
            part(graphs, 0),
            part(graphs, 1),
            part(graphs, 2),
            results_at(graphs, 1),
        ),
    };
    Ok(work)
}
