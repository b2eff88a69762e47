//! Flags of the edges of one graph after another.
ghost use Rattle.std.specs.Prelude.{◌≡◌, ◌∷◌, [], map, IfOk};
ghost use Rattle.std.specs.List.Sorted.{IsStrictlyIncreasing};
ghost use Rattle.storage_flags.specs.Flags.{aggregates_in, aggregates_of};

use crate::types::is_aggregate;
use flow_value::{NoMemory, Seq};
use if1_graph::{Edge, Graph, TypeEntry};
use std::alloc::Global;

/// A flag for each edge of a graph.
pub type Flags = Seq<bool>;

fn aggregates_in(alloc: Global, types: &[TypeEntry], edges: &[Edge]) -> Result<Flags, NoMemory>
    requires { IsStrictlyIncreasing (map (λ e. e.label) types.now) }
    ensures { IfOk result (λ r. r ≡ aggregates_in types.now edges.now) }
{
    let mut flags = Seq::with_room(alloc, edges.len())?;
    for edge in edges {
        flags.add(is_aggregate(types, edge.ty))?;
    }
    Ok(flags)
}

/// Of each edge of these graphs whether it carries an aggregate, behind a row without flags.
pub fn aggregate_rows(
    alloc: Global,
    types: &[TypeEntry],
    graphs: &[&Graph],
) -> Result<Vec<Flags>, NoMemory>
    requires { IsStrictlyIncreasing (map (λ e. e.label) types.now) }
    ensures { IfOk result (λ r. r.items ≡ [] ∷ map (λ g. aggregates_of types.now g.now) graphs.now) }
{
    let mut rows = Vec::new(alloc);
    rows.push(Seq::new(alloc))?;
    for graph in graphs {
        rows.push(aggregates_in(alloc, types, graph.edges.as_slice())?)?;
    }
    Ok(rows)
}
