//! Which edges of a graph consume.
ghost use Rattle.std.specs.Prelude.{◌≡◌, map, IfOk};
ghost use Rattle.std.specs.Option.{option_copied};
ghost use Rattle.std.specs.List.Sorted.{IsStrictlyIncreasing};
ghost use Rattle.if1_marks.specs.Aggregates.{has_parts, kind_in, is_carried_by, is_aggregate};
ghost use Rattle.may_take.specs.Consuming.{is_consuming_by};

use crate::flags::Flags;
use crate::inputs::Inputs;
use crate::uses::{NodeUse, does_consume};
use flow_value::{NoMemory, Seq};
use if1_graph::{Edge, TypeEntry, TypeKind, entry_of, kind_of};
use std::alloc::Global;

fn has_parts(kind: Option<TypeKind>) -> bool
    ensures { result ≡ has_parts kind }
{
    matches!(
        kind,
        Some(TypeKind::Array | TypeKind::Stream | TypeKind::Record | TypeKind::Union)
    )
}

fn kind_in(types: &[TypeEntry], label: u32) -> Option<TypeKind>
    requires { IsStrictlyIncreasing (map (λ e. e.label) types.now) }
    ensures { result ≡ kind_in types.now label }
{
    match entry_of(types, label) {
        Some(entry) => kind_of(entry.code),
        None => None,
    }
}

fn is_carried_by(types: &[TypeEntry], entry: Option<&TypeEntry>) -> bool
    requires { IsStrictlyIncreasing (map (λ e. e.label) types.now) }
    ensures { result ≡ is_carried_by types.now (option_copied entry.entry) }
{
    let Some(entry) = entry else {
        return false;
    };
    match kind_of(entry.code) {
        Some(TypeKind::Multiple) => has_parts(kind_in(types, entry.first)),
        kind => has_parts(kind),
    }
}

/// Whether an aggregate is of the type of this label. Takes the time of two searches.
pub fn is_aggregate(types: &[TypeEntry], label: u32) -> bool
    requires { IsStrictlyIncreasing (map (λ e. e.label) types.now) }
    ensures { result ≡ is_aggregate types.now label }
{
    is_carried_by(types, entry_of(types, label))
}

fn is_consuming_by(
    types: &[TypeEntry],
    functions: &[Inputs],
    labels: &[u32],
    uses: &[NodeUse],
    edge: &Edge,
) -> bool
    requires types { IsStrictlyIncreasing (map (λ e. e.label) types.now) }
    requires labels { IsStrictlyIncreasing labels.now }
    ensures { result ≡ is_consuming_by types.now functions.now labels.now uses.now edge.now }
{
    if !is_aggregate(types, edge.ty) {
        return false;
    }
    does_consume(functions, labels, uses, edge.node, edge.port)
}

/// Which of the edges consume, by what is known of the nodes.
pub fn consuming_by(
    alloc: Global,
    types: &[TypeEntry],
    functions: &[Inputs],
    labels: &[u32],
    uses: &[NodeUse],
    edges: &[Edge],
) -> Result<Flags, NoMemory>
    requires types { IsStrictlyIncreasing (map (λ e. e.label) types.now) }
    requires labels { IsStrictlyIncreasing labels.now }
    ensures { IfOk result (λ r. r ≡ map (is_consuming_by types.now functions.now labels.now uses.now) edges.now) }
{
    let mut flags = Seq::with_room(alloc, edges.len())?;
    for edge in edges {
        flags.add(is_consuming_by(types, functions, labels, uses, edge))?;
    }
    Ok(flags)
}
