//! Which labels are those of types of aggregates.
ghost use Rattle.std.specs.Prelude.{◌≡◌, map};
ghost use Rattle.std.specs.List.Sorted.{IsStrictlyIncreasing};
ghost use Rattle.std.specs.Option.{option_copied};
ghost use Rattle.if1_graph.specs.Types.{entry_at};
ghost use Rattle.if1_marks.specs.Aggregates.{has_parts, kind_in, is_carried_by, is_aggregate};
ghost use Rattle.graph_meaning.specs.StorageUnits.{elements_by};

use if1_graph::{TypeEntry, TypeKind, entry_of, kind_of};

fn has_parts(kind: Option<TypeKind>) -> bool
    ensures { result ≡ has_parts kind }
{
    matches!(
        kind,
        Some(TypeKind::Array | TypeKind::Stream | TypeKind::Record | TypeKind::Union)
    )
}

fn kind_in(types: &[TypeEntry], label: u32) -> Option<TypeKind>
    requires { IsStrictlyIncreasing (map (λ e. e.label) types.now) }
    ensures { result ≡ kind_in types.now label }
{
    match entry_of(types, label) {
        Some(entry) => kind_of(entry.code),
        None => None,
    }
}

fn is_carried_by(types: &[TypeEntry], entry: Option<&TypeEntry>) -> bool
    requires { IsStrictlyIncreasing (map (λ e. e.label) types.now) }
    ensures { result ≡ is_carried_by types.now (option_copied entry.entry) }
{
    let Some(entry) = entry else {
        return false;
    };
    match kind_of(entry.code) {
        Some(TypeKind::Multiple) => has_parts(kind_in(types, entry.first)),
        kind => has_parts(kind),
    }
}

/// Whether an aggregate, or a multiple of aggregates, is of the type of this label. Takes the time of
/// two searches.
pub fn is_aggregate(types: &[TypeEntry], label: u32) -> bool
    requires { IsStrictlyIncreasing (map (λ e. e.label) types.now) }
    ensures { result ≡ is_aggregate types.now label }
{
    is_carried_by(types, entry_of(types, label))
}

fn elements_by(types: &[TypeEntry], entry: Option<&TypeEntry>) -> bool
    requires { IsStrictlyIncreasing (map (λ e. e.label) types.now) }
    ensures { result ≡ elements_by types.now (option_copied entry.entry) }
{
    let Some(entry) = entry else {
        return false;
    };
    match kind_of(entry.code) {
        Some(TypeKind::Array | TypeKind::Stream) => has_parts(kind_in(types, entry.first)),
        _ => false,
    }
}

/// Whether an array or stream of aggregates is of the type of this label. Takes the time of two
/// searches.
pub fn has_aggregate_elements(types: &[TypeEntry], label: u32) -> bool
    requires { IsStrictlyIncreasing (map (λ e. e.label) types.now) }
    ensures { result ≡ elements_by types.now (entry_at types.now label) }
{
    elements_by(types, entry_of(types, label))
}
