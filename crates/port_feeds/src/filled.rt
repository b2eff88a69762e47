//! What fills the ports of a node, or of the boundary of a graph.
ghost use Rattle.std.specs.Prelude.{◌≡◌, ◌&&◌, ℕ, false, Option, length, map, All, Contains, IfOk};
ghost use Rattle.std.specs.List.Sorted.{IsStrictlyIncreasing};
ghost use Rattle.if1_graph.specs.declared.graph.Graph.TheViews.{out-Graph};
ghost use Rattle.if1_graph.specs.declared.graph.Origin.TheVariants as origin;
ghost use Rattle.if1_graph.specs.declared.graph.Unit1.{Unit1};
ghost use Rattle.if1_graph.specs.Formed.{want_at};
ghost use Rattle.if1_graph.specs.Ports.{IsUpTo, inputs};
ghost use Rattle.if1_graph.specs.Units.{Place, label_of, places, width};
ghost use Rattle.graph_meaning.specs.Carried.{Unfilled};
ghost use Rattle.graph_meaning.specs.Demand.{Fixed};
ghost use Rattle.graph_meaning.specs.Networks.{source_from, sources};
ghost use Rattle.graph_meaning.specs.StorageUnits.{storage_of};
ghost use Rattle.run_code.specs.Made.{Plan};
ghost use Rattle.made_store.specs.Settings.{Shares};
ghost use Rattle.plan_data.specs.declared.plan.PlanData.{PlanData};
ghost use Rattle.plan_data.specs.Parts.{IsBelow, literal_in};
ghost use Rattle.plan_data.specs.Stands.{IsFed};
ghost use Rattle.plan_builder.specs.Feeds.{HasLiterals, IsInput, IsSource};
ghost use Rattle.plan_builder.specs.Outlets.{AreLaid, AreOutlets, cells_of};
ghost use Rattle.storage_flags.specs.Flags.{AreFlags};
ghost use Rattle.port_feeds.specs.Filled.{AreFilled, AreTold, IsGraphOf, IsPort};

use crate::edges::{edge_at, place_of, port_behind};
use crate::flags::flag_at;
use crate::literals::{literal_cell, want_at};
use flow_value::{NoMemory, Seq};
use gapped::Gapped;
use if1_graph::{Edge, Graph, Origin, TypeEntry};
use if1_ports::{edges_into, greatest_port};
use if1_sound::Sound;
use plan_builder::{Outlets, literal_feed, port_feed, unfilled_feed};
use plan_data::Feed;
use run_cells::Cell;
use std::alloc::Global;
use storage_flags::Flags;

/// What fills a port, and what is known of the port.
#[derive(Clone, Copy)]
pub struct Filled {
    /// What fills it.
    pub feed: Feed,
    /// Whether the port takes what fills it.
    pub takes: bool,
    /// Whether an aggregate is consumed there.
    pub consumed: bool,
    /// Whether what fills it is an aggregate.
    pub aggregate: bool,
}

/// What fills the port to which this edge leads.
fn feed_of(
    alloc: Global,
    types: &[TypeEntry],
    graph: &Graph,
    outlets: &Outlets,
    edge: &Edge,
    literals: &mut Seq<Cell>,
) -> Result<Feed, NoMemory>
    requires types { IsStrictlyIncreasing (map (λ e. e.label) types.now) }
    requires nodes { IsStrictlyIncreasing (map label_of (out-Graph graph.now).nodes) }
    requires are { AreOutlets outlets.now }
    requires source { (m q : ℕ) → edge.now.from ≡ origin.Port m q → IsSource outlets.now m q }
    ensures kept { (D : PlanData) → HasLiterals literals.new D → HasLiterals literals.old D }
    ensures fed { IfOk result (λ feed. (u : Unit1) (D : PlanData) (P : Plan) (S : Shares) (g : ℕ) → u.types ≡ types.now → HasLiterals literals.new D → AreLaid P outlets.now (P.nodes g) →
        IsFed D P S g feed (source_from u (want_at graph.now edge.now.node edge.now.port) edge.now.ty edge.now.from)) }
    ensures below { IfOk result (IsBelow (cells_of outlets.now.widths outlets.now.order)) }
    ensures input { IfOk result (λ feed. (many : Option ℕ) → ((q : ℕ) → edge.now.from ≡ origin.Port 0 q → IsUpTo many q) → IsInput many feed) }
{
    match &edge.from {
        Origin::Port(node, port) => Ok(port_feed(outlets, *node, *port)),
        Origin::Lit(text) => {
            let want = want_at(graph, edge.node, edge.port);
            let cell = literal_cell(alloc, types, want, edge.ty, text.as_slice())?;
            literal_feed(literals, cell)
        }
    }
}

/// A port to which no edge leads.
fn unfilled() -> Filled
    ensures fed { (D : PlanData) (P : Plan) (S : Shares) (g : ℕ) → literal_in D 0 ≡ Unfilled → IsFed D P S g result.feed (Fixed Unfilled) }
    ensures below { (cells : ℕ) → IsBelow cells result.feed }
    ensures input { (many : Option ℕ) → IsInput many result.feed }
    ensures takes { result.takes ≡ false }
    ensures consumed { result.consumed ≡ false }
    ensures aggregate { result.aggregate ≡ false }
{
    Filled {
        feed: unfilled_feed(),
        takes: false,
        consumed: false,
        aggregate: false,
    }
}

/// What fills a port of a node. Takes the time of a search among the edges, and for a literal of one
/// among the nodes and one among the types.
fn port_at(
    alloc: Global,
    unit: &Sound,
    graph: &Graph,
    aggregates: &[Flags],
    consumed: &[Flags],
    outlets: &Outlets,
    label: u32,
    port: u32,
    literals: &mut Seq<Cell>,
) -> Result<Filled, NoMemory>
    requires are { AreOutlets outlets.now }
    requires place { IsGraphOf unit.now graph.now outlets.now }
    requires flags { AreFlags unit.now (storage_of unit.now).is_aggregate aggregates.now }
    requires consumers { AreFlags unit.now (λ k l port. (storage_of unit.now).is_aggregate k l port && (storage_of unit.now).is_given k l port) consumed.now }
    ensures kept { (D : PlanData) → HasLiterals literals.new D → HasLiterals literals.old D }
    ensures right { IfOk result (IsPort unit.now graph.now outlets.now literals.new label port) }
{
    let whole = unit.unit();
    let edges = graph.edges.as_slice();
    let place = place_of(edges, label, port);
    let Some(edge) = edge_at(edges, place, label, port) else {
        return Ok(unfilled());
    };
    let feed = feed_of(
        alloc,
        whole.types.as_slice(),
        graph,
        outlets,
        edge,
        literals,
    )?;
    Ok(Filled {
        feed,
        takes: edge.takes,
        consumed: flag_at(consumed, graph.number, place),
        aggregate: flag_at(aggregates, graph.number, place),
    })
}

/// What fills the ports of the node of a label, or of the boundary of a graph for 0, from port 1 to the
/// last one that is filled; only those that are filled are kept. The flags are those of the edges of
/// the unit, by the numbers of the graphs. Literals are put behind the others; more than 32 bits count
/// are want of memory. Takes for each edge the time of a search among the edges, and for a literal of
/// one among the nodes and one among the types.
pub fn ports_of(
    alloc: Global,
    unit: &Sound,
    graph: &Graph,
    aggregates: &[Flags],
    consumed: &[Flags],
    outlets: &Outlets,
    label: u32,
    literals: &mut Seq<Cell>,
) -> Result<Gapped<Filled>, NoMemory>
    requires are { AreOutlets outlets.now }
    requires place { IsGraphOf unit.now graph.now outlets.now }
    requires flags { AreFlags unit.now (storage_of unit.now).is_aggregate aggregates.now }
    requires consumers { AreFlags unit.now (λ k l port. (storage_of unit.now).is_aggregate k l port && (storage_of unit.now).is_given k l port) consumed.now }
    ensures kept { (D : PlanData) → HasLiterals literals.new D → HasLiterals literals.old D }
    ensures long { IfOk result (λ xs. length xs ≡ width graph.now label) }
    ensures filled { IfOk result (λ xs. (D : PlanData) (P : Plan) (S : Shares) → literal_in D 0 ≡ Unfilled → HasLiterals literals.new D → AreLaid P outlets.now (P.nodes (out-Graph graph.now).number) →
        AreFilled D P S (storage_of unit.now) (out-Graph graph.now).number label 1 xs (sources unit.now graph.now label 1 (width graph.now label))) }
    ensures below { IfOk result (λ xs. All (λ x. IsBelow (cells_of outlets.now.widths outlets.now.order) x.feed) xs) }
    ensures there { IfOk result (λ xs. (p : Place) → Contains (places unit.now) p → p.graph ≡ graph.now → All (λ x. IsInput (inputs unit.now p) x.feed) xs) }
    ensures told { IfOk result (λ xs. AreTold (storage_of unit.now) (out-Graph graph.now).number label 1 xs) }
{
    let _whole = unit.unit();
    let edges = graph.edges.as_slice();
    let width = greatest_port(edges_into(edges, label));
    let none = unfilled();
    let mut gaps = Seq::new(alloc);
    let mut ports = Seq::new(alloc);
    let mut place = 0;
    while place < width {
        let next = port_behind(edges, label, place, width);
        let port = port_at(
            alloc, unit, graph, aggregates, consumed, outlets, label, next, literals,
        )?;
        gaps.add(next - place - 1)?;
        ports.add(port)?;
        place = next;
    }
    Ok(Gapped::new(none, gaps, ports))
}
