//! Nodes that reach themselves, in all graphs of a unit.
ghost use Rattle.std.specs.Prelude.{◌≡◌, ◌≤◌, All, MatchOption, IfOk};
ghost use Rattle.if1_graph.specs.Units.{levels, most_levels};
ghost use Rattle.if1_graph.specs.Ready.{IsAcyclic, IsOnCycle, PortsHold};
ghost use Rattle.if1_graph.specs.declared.graph.Graph.{Graph};
ghost use Rattle.if1_graph.specs.declared.graph.Graph.TheViews.{out-Graph};
ghost use Rattle.if1_graph.specs.declared.graph.Unit1.{Unit1};
ghost use Rattle.if1_graph.specs.Normal.{IsNormal};
ghost use Rattle.if1_order.specs.Orders.{IsLinked, Orders, HasNoCircle, IsCircle, AreLinked};
ghost use Rattle.if1_order.specs.Parts.{IsLinkedInside, AreLinkedInside, NodesAreLinked, IsClear, AreClear, NodesAreClear, HasCircle, HaveCircle, NodesHaveCircle};

use crate::arranged::{NodeOrder, order};
use crate::rising::all_lead_on;
use flow_value::NoMemory;
use if1_graph::{Graph, Node, Unit1};
use std::alloc::Global;

fn circle_of(number: u32, found: &NodeOrder) -> Option<(u32, u32)>
    ensures { (g : Graph) → Orders g found.now → (out-Graph g).number ≡ number → MatchOption result (HasNoCircle g) (IsCircle g) }
{
    match found {
        NodeOrder::Nodes(_) => None,
        NodeOrder::Circle(label) => Some((number, *label)),
    }
}

/// Where all edges lead to greater labels, as in most texts, no order is sought.
fn circle_in(alloc: Global, graph: &Graph) -> Result<Option<(u32, u32)>, NoMemory>
    requires { IsLinked graph.now }
    ensures { IfOk result (λ r. MatchOption r (HasNoCircle graph.now) (IsCircle graph.now)) }
{
    if all_lead_on(graph.edges.as_slice()) {
        return Ok(None);
    }
    let found = order(alloc, graph)?;
    let at = circle_of(graph.number, &found);
    Ok(at)
}

#[cycle(circles)]
fn wrong_graph(alloc: Global, graph: &Graph) -> Result<Option<(u32, u32)>, NoMemory>
    requires { IsLinkedInside graph.now }
    ensures { IfOk result (λ r. MatchOption r (IsClear graph.now) (HasCircle graph.now)) }
{
    if let Some(at) = circle_in(alloc, graph)? {
        return Ok(Some(at));
    }
    wrong_nodes(alloc, graph.nodes.as_slice())
}

#[cycle(circles)]
fn wrong_nodes(alloc: Global, nodes: &[Node]) -> Result<Option<(u32, u32)>, NoMemory>
    requires { NodesAreLinked nodes.now }
    ensures { IfOk result (λ r. MatchOption r (NodesAreClear nodes.now) (NodesHaveCircle nodes.now)) }
{
    for node in nodes {
        if let Some(at) = wrong_parts(alloc, node.subs.as_slice())? {
            return Ok(Some(at));
        }
    }
    Ok(None)
}

#[cycle(circles)]
fn wrong_parts(alloc: Global, graphs: &[Graph]) -> Result<Option<(u32, u32)>, NoMemory>
    requires { AreLinkedInside graphs.now }
    ensures { IfOk result (λ r. MatchOption r (AreClear graphs.now) (HaveCircle graphs.now)) }
{
    for graph in graphs {
        if let Some(at) = wrong_graph(alloc, graph)? {
            return Ok(Some(at));
        }
    }
    Ok(None)
}

/// The number of a graph and the label of one of its nodes that reaches itself along data edges, if
/// there is one (fault 5).
pub fn wrong_order(alloc: Global, unit: &Unit1) -> Result<Option<(u32, u32)>, NoMemory>
    requires linked { AreLinked unit.now }
    requires nesting { All (λ g. levels g ≤ most_levels) unit.now.graphs }
    ensures { IfOk result (λ r. MatchOption r (IsAcyclic unit.now) (λ at. IsOnCycle unit.now at.0 at.1)) }
{
    wrong_parts(alloc, unit.graphs.as_slice())
}

/// Where the ports of a normal unit are right, its nodes stand by rising label, and its edges lead
/// from and into nodes that are there.
pub fn ports_link()
    ensures { (u : Unit1) → IsNormal u → PortsHold u → AreLinked u }
{}
