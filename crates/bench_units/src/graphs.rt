//! Which edges inside the nodes of a graph carry what a port of it lends.
ghost use Rattle.storage_flags.specs.Flags.{AreRows, consumers_of};
ghost use Rattle.port_feeds.specs.Lenders.{IsNodeIn};
ghost use Rattle.node_works.specs.Tables.{IsGraphOf};

use if1_graph::{Edge, Graph, Node};
use if1_sound::Sound;
use port_feeds::edge_lender;
use storage_flags::Flags;

fn lent_in_part(
    unit: &Sound,
    consumed: &[Flags],
    outer: &Graph,
    node: &Node,
    place: usize,
    edges: &[Edge],
) -> usize
    requires rows { AreRows unit.now (consumers_of unit.now) consumed.now }
    requires here { IsNodeIn unit.now outer.now node.now }
{
    let mut count: usize = 0;
    for edge in edges {
        if edge_lender(unit, consumed, outer, node, place, &edge.from).is_some() {
            count = count.saturating_add(1);
        }
    }
    count
}

fn lent_in_node(unit: &Sound, consumed: &[Flags], outer: &Graph, node: &Node) -> usize
    requires rows { AreRows unit.now (consumers_of unit.now) consumed.now }
    requires here { IsNodeIn unit.now outer.now node.now }
{
    let mut count: usize = 0;
    for (place, part) in node.subs.as_slice().iter().enumerate() {
        let lent = lent_in_part(unit, consumed, outer, node, place, part.edges.as_slice());
        count = count.saturating_add(lent);
    }
    count
}

/// How many edges of the graphs inside the nodes of a graph carry what a port of it lends.
pub fn lent_inside(unit: &Sound, consumed: &[Flags], outer: &Graph) -> usize
    requires rows { AreRows unit.now (consumers_of unit.now) consumed.now }
    requires here { IsGraphOf unit.now outer.now }
{
    let mut count: usize = 0;
    for node in outer.nodes.as_slice() {
        let lent = lent_in_node(unit, consumed, outer, node);
        count = count.saturating_add(lent);
    }
    count
}
