//! The types of what leaves the nodes of a graph.
ghost use Rattle.std.specs.Prelude.{◌≡◌, ℕ, List, None, ◌∷◌, length, map, replicate, IfOk};
ghost use Rattle.std.specs.List.Sorted.{IsStrictlyIncreasing};
ghost use Rattle.if1_graph.specs.declared.graph.Edge.{Edge};
ghost use Rattle.if1_graph.specs.declared.graph.Graph.TheViews.{out-Graph};
ghost use Rattle.node_works.specs.Tables.{IsGraphOf, IsNoted, first_leaving, output_label};

use flow_value::{NoMemory, Seq};
use if1_graph::{Edge, Graph, Origin};
use if1_order::{labels_of, place_of};
use if1_sound::Sound;
use std::alloc::Global;

fn no_types(alloc: Global, count: usize) -> Result<Seq<Option<u32>>, NoMemory>
    ensures { IfOk result (λ ts. ts ≡ replicate count None) }
{
    let mut types = Seq::with_room(alloc, count)?;
    for _ in 0..count {
        types.add(None)?;
    }
    Ok(types)
}

fn set_at(labels: &[u32], from: u32, ty: u32, types: &mut Seq<Option<u32>>)
    requires rising { IsStrictlyIncreasing labels.now }
    requires fit { length types.old ≡ length labels.now }
    ensures { IsNoted labels.now from ty types.old types.new }
{
    match place_of(labels, from) {
        Some(place) => types.set(place, Some(ty)),
        None => {}
    }
}

fn note(labels: &[u32], edge: &Edge, types: &mut Seq<Option<u32>>)
    requires rising { IsStrictlyIncreasing labels.now }
    requires fit { length types.old ≡ length labels.now }
    ensures { (es : List Edge) → types.old ≡ map (first_leaving es) labels.now → types.new ≡ map (first_leaving (edge.now ∷ es)) labels.now }
{
    match &edge.from {
        Origin::Port(from, port) if *port == 1 => set_at(labels, *from, edge.ty, types),
        _ => {}
    }
}

// the first edge is the last that is noted
fn types_by(alloc: Global, labels: &[u32], edges: &[Edge]) -> Result<Seq<Option<u32>>, NoMemory>
    requires { IsStrictlyIncreasing labels.now }
    ensures { IfOk result (λ ts. ts ≡ map (first_leaving edges.now) labels.now) }
{
    let mut types = no_types(alloc, labels.len())?;
    let mut index = edges.len();
    while index > 0 {
        index -= 1;
        note(labels, &edges[index], &mut types);
    }
    Ok(types)
}

/// For each node of a graph the label of the type of the first edge that leaves its port 1, if there is
/// one. Takes for each edge the time of a search among the nodes.
pub fn output_types(
    alloc: Global,
    unit: &Sound,
    graph: &Graph,
) -> Result<Seq<Option<u32>>, NoMemory>
    requires here { IsGraphOf unit.now graph.now }
    ensures { IfOk result (λ ts. ts ≡ map (output_label graph.now) (out-Graph graph.now).nodes) }
{
    unit.unit();
    let labels = labels_of(alloc, graph.nodes.as_slice())?;
    let types = types_by(alloc, labels.as_slice(), graph.edges.as_slice())?;
    Ok(types)
}
