//! Which edges consume, in a graph and in all graphs inside it.
ghost use Rattle.std.specs.Prelude.{◌≡◌, ◌∷◌, map, IfOk};
ghost use Rattle.std.specs.List.Sorted.{IsStrictlyIncreasing};
ghost use Rattle.if1_graph.specs.Formed.{IsFormed};
ghost use Rattle.if1_graph.specs.Normal.{IsNormal};
ghost use Rattle.if1_graph.specs.Units.{places};
ghost use Rattle.if1_graph.specs.declared.graph.Graph.TheViews.{out-Graph};
ghost use Rattle.may_take.specs.Looked.{IsLaidInside, AreLaid};
ghost use Rattle.may_take.specs.Inner.{consuming_at, IsSeen, AreNodesSeen, ArePartsSeen};

use crate::flags::{Asked, Flags};
use crate::functions::Functions;
use crate::looking::{Looked, LookedNodes, add_node, looked_by, no_nodes};
use crate::units::functions_of;
use flow_value::{NoMemory, Seq};
use if1_graph::{Graph, Unit1};
use std::alloc::Global;

/// What is known of a graph, and which edges consume in it and in each graph inside it.
#[derive(Drop)]
pub struct SeenGraph {
    /// What is known of the graph.
    pub looked: Looked,
    /// Which edges consume, for the graph and each graph inside it.
    pub consuming: Vec<Flags>,
}

/// What is known of nodes of a graph, and which edges consume in each graph inside them.
#[derive(Drop)]
pub struct SeenNodes {
    /// What is known of the nodes.
    pub nodes: LookedNodes,
    /// Which edges consume, for each graph inside them.
    pub consuming: Vec<Flags>,
}

/// What is known of graphs, and which edges consume in them and in each graph inside them.
#[derive(Drop)]
pub struct SeenParts {
    /// What is known of each graph.
    pub parts: Vec<Looked>,
    /// Which edges consume, for each graph with those inside it.
    pub consuming: Vec<Flags>,
}

// the flags of a graph, and of the graphs inside it
fn with_own(alloc: Global, own: &[bool], deeper: Vec<Flags>) -> Result<Vec<Flags>, NoMemory>
    ensures { IfOk result (λ r. r.items ≡ own.now ∷ deeper.items) }
{
    let first = Seq::from_slice(alloc, own)?;
    let mut all = Vec::new(alloc);
    let mut deeper = deeper;
    all.push(first)?;
    all.append(&mut deeper)?;
    Ok(all)
}

#[cycle(see)]
fn see(
    alloc: Global,
    unit: &Unit1,
    functions: &Functions,
    graph: &Graph,
) -> Result<SeenGraph, NoMemory>
    requires types { IsStrictlyIncreasing (map (λ e. e.label) unit.now.types) }
    requires laid { IsLaidInside graph.now }
    ensures { IfOk result (IsSeen unit.now functions.now graph.now) }
{
    let seen = see_nodes(alloc, unit, functions, graph)?;
    let SeenNodes { nodes, consuming } = seen;
    let looked = looked_by(alloc, unit, functions, graph, nodes)?;
    let all = with_own(alloc, looked.consuming.as_slice(), consuming)?;
    Ok(SeenGraph {
        looked,
        consuming: all,
    })
}

#[cycle(see)]
fn see_nodes(
    alloc: Global,
    unit: &Unit1,
    functions: &Functions,
    graph: &Graph,
) -> Result<SeenNodes, NoMemory>
    requires types { IsStrictlyIncreasing (map (λ e. e.label) unit.now.types) }
    requires laid { IsLaidInside graph.now }
    ensures { IfOk result (AreNodesSeen unit.now functions.now graph.now (out-Graph graph.now).nodes) }
{
    let mut nodes = no_nodes(alloc, unit, functions, graph);
    let mut consuming = Vec::new(alloc);
    for node in graph.nodes.as_slice() {
        let seen = see_parts(alloc, unit, functions, node.subs.as_slice())?;
        let SeenParts {
            parts,
            consuming: deeper,
        } = seen;
        let mut deeper = deeper;
        add_node(alloc, unit, functions, graph, node, parts, &mut nodes)?;
        consuming.append(&mut deeper)?;
    }
    Ok(SeenNodes { nodes, consuming })
}

#[cycle(see)]
fn see_parts(
    alloc: Global,
    unit: &Unit1,
    functions: &Functions,
    graphs: &[Graph],
) -> Result<SeenParts, NoMemory>
    requires types { IsStrictlyIncreasing (map (λ e. e.label) unit.now.types) }
    requires laid { AreLaid graphs.now }
    ensures { IfOk result (ArePartsSeen unit.now functions.now graphs.now) }
{
    let mut parts = Vec::new(alloc);
    let mut consuming = Vec::new(alloc);
    for graph in graphs {
        let seen = see(alloc, unit, functions, graph)?;
        let SeenGraph {
            looked,
            consuming: deeper,
        } = seen;
        let mut deeper = deeper;
        parts.push(looked)?;
        consuming.append(&mut deeper)?;
    }
    Ok(SeenParts { parts, consuming })
}

/// Of each graph of a unit, in order, and each of its edges, whether it consumes: an aggregate is carried
/// to where it is consumed. Near linear in the unit. Calls itself once for each level of compound nodes.
pub fn consuming_edges(alloc: Global, unit: &Unit1) -> Result<Vec<Flags>, NoMemory>
    requires formed { IsFormed unit.now }
    requires normal { IsNormal unit.now }
    ensures { IfOk result (λ r. r.items ≡ map (consuming_at unit.now) (places unit.now)) }
{
    let functions = functions_of(alloc, unit, Asked::Nothing)?;
    let seen = see_parts(alloc, unit, &functions, unit.graphs.as_slice())?;
    let SeenParts {
        parts: _,
        consuming,
    } = seen;
    Ok(consuming)
}
