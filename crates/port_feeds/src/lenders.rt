//! Which port of the graph around it lends an input of a graph.
ghost use Rattle.std.specs.Prelude.{◌≡◌, ◌&&◌, map};
ghost use Rattle.std.specs.List.Sorted.{IsStrictlyIncreasing};
ghost use Rattle.std.specs.Option.{option_copied};
ghost use Rattle.if1_graph.specs.declared.graph.Graph.{Graph};
ghost use Rattle.if1_graph.specs.Units.{Inside};
ghost use Rattle.storage_flags.specs.Flags.{AreRows, consumers_of};
ghost use Rattle.port_feeds.specs.Lenders as spec;

use crate::edges::{edge_at, place_of};
use crate::flags::flag_at;
use if1_graph::{Edge, Graph, Node, Origin, Part, TypeEntry, compound_of, part_at};
use if1_sound::Sound;
use storage_flags::{Flags, is_aggregate};

/// A port of the graph around a graph that lends one of its inputs.
#[derive(Clone, Copy)]
pub struct Lender {
    /// The label of the node whose output it is, or 0 for an input of the graph around.
    pub node: u32,
    /// Its number.
    pub port: u32,
}

fn port_left(from: &Origin) -> Option<Lender>
    ensures { result ≡ spec.port_left from.now }
{
    match from {
        Origin::Port(node, port) => Some(Lender {
            node: *node,
            port: *port,
        }),
        Origin::Lit(_) => None,
    }
}

fn aggregate_from(types: &[TypeEntry], edge: Option<&Edge>) -> Option<Lender>
    requires { IsStrictlyIncreasing (map (λ e. e.label) types.now) }
    ensures { result ≡ spec.aggregate_from types.now (option_copied edge.entry) }
{
    let Some(edge) = edge else {
        return None;
    };
    if is_aggregate(types, edge.ty) {
        port_left(&edge.from)
    } else {
        None
    }
}

fn unless_owned(owned: bool, lent: Option<Lender>) -> Option<Lender>
    ensures { result ≡ spec.unless_owned owned lent }
{
    if owned { None } else { lent }
}

fn does_own(part: Option<Part>) -> bool
    ensures { result ≡ spec.does_own part }
{
    matches!(
        part,
        Some(Part::Alternative | Part::Arm | Part::Initialization)
    )
}

fn part_in(node: &Node, place: usize) -> Option<Part>
    ensures { result ≡ spec.part_in node.now place }
{
    match compound_of(node.op) {
        Some(compound) => part_at(compound, place),
        None => None,
    }
}

fn both(a: bool, b: bool) -> bool
    ensures { result ≡ (a && b) }
{
    a && b
}

/// The port of a graph that lends an input of the graph at a place in one of its nodes, if one does. The
/// flags tell of the edges of the unit, by the numbers of the graphs, which consume. Takes a search among
/// the edges.
pub fn input_lender(
    unit: &Sound,
    consumed: &[Flags],
    outer: &Graph,
    node: &Node,
    place: usize,
    port: u32,
) -> Option<Lender>
    requires rows { AreRows unit.now (consumers_of unit.now) consumed.now }
    requires here { spec.IsNodeIn unit.now outer.now node.now }
    ensures { (g : Graph) → result ≡ spec.input_lender unit.now (record { graph = g; home = Inside outer.now node.now place }) port }
{
    let whole = unit.unit();
    let edges = outer.edges.as_slice();
    let found = place_of(edges, node.label, port);
    let edge = edge_at(edges, found, node.label, port);
    let owned = both(
        does_own(part_in(node, place)),
        flag_at(consumed, outer.number, found),
    );
    unless_owned(owned, aggregate_from(whole.types.as_slice(), edge))
}

/// The port of a graph that lends what an edge carries which comes from here, in the graph at a place in
/// one of the nodes, if one does. Takes at most the time of `input_lender`.
pub fn edge_lender(
    unit: &Sound,
    consumed: &[Flags],
    outer: &Graph,
    node: &Node,
    place: usize,
    from: &Origin,
) -> Option<Lender>
    requires rows { AreRows unit.now (consumers_of unit.now) consumed.now }
    requires here { spec.IsNodeIn unit.now outer.now node.now }
    ensures { (g : Graph) → result ≡ spec.edge_lender unit.now (record { graph = g; home = Inside outer.now node.now place }) from.now }
{
    match from {
        Origin::Port(0, port) => input_lender(unit, consumed, outer, node, place, *port),
        _ => None,
    }
}
