//! The ports of all graphs of a unit.
ghost use Rattle.std.specs.Prelude.{◌≡◌, AllPairs, MatchOption, IfOk};
ghost use Rattle.std.specs.Option.{unwrap_or};
ghost use Rattle.if1_graph.specs.Normal.{IsNormal, Precedes};
ghost use Rattle.if1_graph.specs.Formed.{IsFormed};
ghost use Rattle.if1_graph.specs.Ready.{PortsHold, BreaksPorts};
ghost use Rattle.if1_graph.specs.declared.graph.Graph.TheViews.{out-Graph};
ghost use Rattle.if1_graph.specs.declared.graph.Node.{out-Node};
ghost use Rattle.if1_types.specs.Numbering.{IsNumbering};
ghost use Rattle.if1_ports.specs.Outlines.{types_in};
ghost use Rattle.if1_ports.specs.Names.{callees_in};
ghost use Rattle.if1_ports.specs.Inside as spec;
ghost use Rattle.if1_ports.specs.Inside.{InOrderInside, AreInOrder, AllRight, SomeWrong, PartsRight, PartsWrong, NodesRight, NodesWrong, FunctionsRight, FunctionsWrong};

use crate::around::{Around, Bounds, around_of, bounds_at};
use crate::ends::wrong_end;
use crate::fed::greatest_port;
use crate::into::{edges_into, results_of};
use crate::names::{Names, names_of};
use crate::outline::{arguments_in, results_in};
use crate::outlines::outlines_of;
use crate::rows::Outlines;
use flow_value::NoMemory;
use if1_graph::{Graph, Node, Unit1, compound_of};
use if1_types::Sorts;
use std::alloc::Global;

/// What the ports of the graphs in a node of a graph depend on; nothing for a simple node.
fn around_in(graph: &Graph, node: &Node) -> Option<Around>
    requires order { AllPairs Precedes (out-Graph graph.now).edges }
    requires inside { AreInOrder (out-Node node.now).subs }
    ensures { result ≡ spec.around_in graph.now node.now }
{
    let width = greatest_port(edges_into(graph.edges.as_slice(), node.label));
    match compound_of(node.op) {
        Some(compound) => Some(around_of(compound, width, node.subs.as_slice())),
        None => None,
    }
}

#[cycle(walk)]
fn wrong_graph(
    alloc: Global,
    types: &Outlines,
    names: &Names,
    graph: &Graph,
    bounds: Bounds,
) -> Result<Option<(u32, u32)>, NoMemory>
    requires { InOrderInside graph.now }
    ensures { IfOk result (λ r. MatchOption r (AllRight (types_in types.now) (callees_in names.now) bounds graph.now) (SomeWrong (types_in types.now) (callees_in names.now) bounds graph.now)) }
{
    if let Some(label) = wrong_end(alloc, types, names, graph, bounds)? {
        return Ok(Some((graph.number, label)));
    }
    wrong_nodes(alloc, types, names, graph)
}

#[cycle(walk)]
fn wrong_nodes(
    alloc: Global,
    types: &Outlines,
    names: &Names,
    graph: &Graph,
) -> Result<Option<(u32, u32)>, NoMemory>
    requires { InOrderInside graph.now }
    ensures { IfOk result (λ r. MatchOption r (NodesRight (types_in types.now) (callees_in names.now) graph.now (out-Graph graph.now).nodes) (NodesWrong (types_in types.now) (callees_in names.now) graph.now (out-Graph graph.now).nodes)) }
{
    for node in graph.nodes.as_slice() {
        let around = around_in(graph, node);
        if let Some(at) = wrong_parts(alloc, types, names, around, node.subs.as_slice())? {
            return Ok(Some(at));
        }
    }
    Ok(None)
}

#[cycle(walk)]
fn wrong_parts(
    alloc: Global,
    types: &Outlines,
    names: &Names,
    around: Option<Around>,
    graphs: &[Graph],
) -> Result<Option<(u32, u32)>, NoMemory>
    requires { AreInOrder graphs.now }
    ensures { IfOk result (λ r. MatchOption r (PartsRight (types_in types.now) (callees_in names.now) around graphs.now) (PartsWrong (types_in types.now) (callees_in names.now) around graphs.now)) }
{
    for place in 0..graphs.len() {
        let graph = &graphs[place];
        let bounds = bounds_at(around, place, results_of(graph));
        if let Some(at) = wrong_graph(alloc, types, names, graph, bounds)? {
            return Ok(Some(at));
        }
    }
    Ok(None)
}

fn widened(count: Option<u32>) -> Option<u64>
    ensures { result ≡ count }
{
    match count {
        Some(count) => Some(u64::from(count)),
        None => None,
    }
}

fn or_own(count: Option<u32>, own: u32) -> u32
    ensures { result ≡ unwrap_or count own }
{
    match count {
        Some(count) => count,
        None => own,
    }
}

/// What the boundary of a function must have.
fn function_bounds(types: &Outlines, graph: &Graph) -> Bounds
    requires { AllPairs Precedes (out-Graph graph.now).edges }
    ensures { result ≡ spec.function_bounds (types_in types.now) graph.now }
{
    let outline = types.outline(graph.fun);
    Bounds {
        inputs: widened(arguments_in(outline)),
        results: or_own(results_in(outline), results_of(graph)),
    }
}

fn wrong_functions(
    alloc: Global,
    types: &Outlines,
    names: &Names,
    graphs: &[Graph],
) -> Result<Option<(u32, u32)>, NoMemory>
    requires { AreInOrder graphs.now }
    ensures { IfOk result (λ r. MatchOption r (FunctionsRight (types_in types.now) (callees_in names.now) graphs.now) (FunctionsWrong (types_in types.now) (callees_in names.now) graphs.now)) }
{
    for graph in graphs {
        let bounds = function_bounds(types, graph);
        if let Some(at) = wrong_graph(alloc, types, names, graph, bounds)? {
            return Ok(Some(at));
        }
    }
    Ok(None)
}

/// The number of a graph and the label of one of its nodes whose ports are not filled as the tables say,
/// or into which an edge leads from a port that is not there, 0 for the boundary of the graph, if there
/// is one (fault 6). Where alternatives, arms, or a turn and its initialization differ in the number of
/// results, it is the boundary of one with fewer than the longest has. Near linear in the nodes, edges
/// and types. Calls itself once for each level of compound nodes.
pub fn wrong_ports(
    alloc: Global,
    sorts: &Sorts,
    unit: &Unit1,
) -> Result<Option<(u32, u32)>, NoMemory>
    requires formed { IsFormed unit.now }
    requires normal { IsNormal unit.now }
    requires numbers { IsNumbering unit.now.types sorts.now }
    ensures { IfOk result (λ r. MatchOption r (PortsHold unit.now) (λ at. BreaksPorts unit.now at.0 at.1)) }
{
    let types = outlines_of(alloc, sorts, unit.types.as_slice())?;
    let names = names_of(alloc, &types, unit.graphs.as_slice())?;
    let found = wrong_functions(alloc, &types, &names, unit.graphs.as_slice())?;
    Ok(found)
}
