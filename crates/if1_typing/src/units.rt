//! The types of all graphs of a unit.
ghost use Rattle.std.specs.Prelude.{MatchOption, IfOk, Contains};
ghost use Rattle.if1_graph.specs.Normal.{IsNormal};
ghost use Rattle.if1_graph.specs.Formed.{IsFormed};
ghost use Rattle.if1_graph.specs.Ready.{PortsHold, TypesHold, BreaksTypes};
ghost use Rattle.if1_graph.specs.declared.graph.Graph.TheViews.{out-Graph};
ghost use Rattle.if1_typing.specs.Tables.{table_of, Tells};
ghost use Rattle.if1_fits.specs.Views.{AreUp};
ghost use Rattle.if1_typing.specs.Fed.{AreOrdered};
ghost use Rattle.if1_typing.specs.Inside.{IsLaidInside, AreLaid, AllRight, SomeWrong, PartsRight, PartsWrong, NodeRight, NodeWrong, NodesRight, NodesWrong, FunctionsRight, FunctionsWrong};

use crate::contents::{content_at, contents_of};
use crate::ends::wrong_end;
use crate::known::Known;
use crate::site::{Content, Frame, Site};
use crate::sites::{frame_by, site_at};
use flow_value::NoMemory;
use if1_graph::{Edge, Graph, Node, Unit1};
use if1_ports::edges_into;
use std::alloc::Global;

#[cycle(walk)]
fn wrong_graph(
    alloc: Global,
    known: &Known,
    graph: &Graph,
    site: Site,
    inputs: &[Edge],
    parts: &[Graph],
) -> Result<Option<(u32, u32)>, NoMemory>
    requires laid { IsLaidInside graph.now }
    requires up { AreUp inputs.now }
    requires order { AreOrdered parts.now }
    ensures { IfOk result (λ r. MatchOption
        r
        (AllRight (table_of known.now) (record { site = site; inputs = inputs.now; parts = parts.now }) graph.now)
        (SomeWrong (table_of known.now) (record { site = site; inputs = inputs.now; parts = parts.now }) graph.now)) }
{
    if let Some(label) = wrong_end(alloc, known, graph, site, inputs, parts)? {
        return Ok(Some((graph.number, label)));
    }
    wrong_nodes(alloc, known, graph)
}

#[cycle(walk)]
fn wrong_nodes(alloc: Global, known: &Known, graph: &Graph) -> Result<Option<(u32, u32)>, NoMemory>
    requires { IsLaidInside graph.now }
    ensures { IfOk result (λ r. MatchOption r (NodesRight (table_of known.now) graph.now (out-Graph graph.now).nodes) (NodesWrong (table_of known.now) graph.now (out-Graph graph.now).nodes)) }
{
    for node in graph.nodes.as_slice() {
        if let Some(at) = wrong_node(alloc, known, graph, node)? {
            return Ok(Some(at));
        }
    }
    Ok(None)
}

#[cycle(walk)]
fn wrong_node(
    alloc: Global,
    known: &Known,
    graph: &Graph,
    node: &Node,
) -> Result<Option<(u32, u32)>, NoMemory>
    requires laid { IsLaidInside graph.now }
    requires there { Contains (out-Graph graph.now).nodes node.now }
    ensures { IfOk result (λ r. MatchOption r (NodeRight (table_of known.now) graph.now node.now) (NodeWrong (table_of known.now) graph.now node.now)) }
{
    let graphs = node.subs.as_slice();
    let inputs = edges_into(graph.edges.as_slice(), node.label);
    let frame = frame_by(known, inputs, node);
    let contents = contents_of(alloc, known, frame, node.assoc.as_slice(), graphs.len())?;
    let found = wrong_parts(alloc, known, frame, contents.as_slice(), inputs, graphs)?;
    Ok(found)
}

#[cycle(walk)]
fn wrong_parts(
    alloc: Global,
    known: &Known,
    frame: Option<Frame>,
    contents: &[Content],
    inputs: &[Edge],
    graphs: &[Graph],
) -> Result<Option<(u32, u32)>, NoMemory>
    requires laid { AreLaid graphs.now }
    requires up { AreUp inputs.now }
    ensures { IfOk result (λ r. MatchOption
        r
        (PartsRight (table_of known.now) frame contents.now inputs.now graphs.now)
        (PartsWrong (table_of known.now) frame contents.now inputs.now graphs.now)) }
{
    for place in 0..graphs.len() {
        let site = site_at(frame, content_at(contents, place), place);
        if let Some(at) = wrong_graph(alloc, known, &graphs[place], site, inputs, graphs)? {
            return Ok(Some(at));
        }
    }
    Ok(None)
}

fn wrong_functions(
    alloc: Global,
    known: &Known,
    graphs: &[Graph],
) -> Result<Option<(u32, u32)>, NoMemory>
    requires { AreLaid graphs.now }
    ensures { IfOk result (λ r. MatchOption r (FunctionsRight (table_of known.now) graphs.now) (FunctionsWrong (table_of known.now) graphs.now)) }
{
    for graph in graphs {
        let site = Site::Function(known.number(graph.fun));
        if let Some(at) = wrong_graph(alloc, known, graph, site, &[], &[])? {
            return Ok(Some(at));
        }
    }
    Ok(None)
}

/// The number of a graph and the label of one of its nodes into which an edge or literal leads with a
/// type that is not the table's, 0 for the boundary of the graph or the type of a function, if there is
/// one (IF1 manual M-170, simple and compound nodes; fault 7). Where alternatives, arms, or a turn and
/// its initialization differ in types, it is the boundary of one that differs from the first. Near
/// linear in the nodes, edges and types. Calls itself once for each level of compound nodes.
pub fn wrong_type(
    alloc: Global,
    known: &Known,
    unit: &Unit1,
) -> Result<Option<(u32, u32)>, NoMemory>
    requires formed { IsFormed unit.now }
    requires normal { IsNormal unit.now }
    requires ports { PortsHold unit.now }
    requires known { Tells unit.now.types unit.now.graphs (table_of known.now) }
    ensures { IfOk result (λ r. MatchOption r (TypesHold unit.now) (λ at. BreaksTypes unit.now at.0 at.1)) }
{
    let found = wrong_functions(alloc, known, unit.graphs.as_slice())?;
    Ok(found)
}
