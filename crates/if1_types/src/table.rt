//! Numbers beside the labels of a table.
ghost use Rattle.std.specs.Prelude.{◌≡◌, IfOk, get_or};
ghost use Rattle.std.specs.List.Sorted.{IsStrictlyIncreasing};
ghost use Rattle.if1_types.specs.Tables.{number_at, labels_in};

use flow_value::{NoMemory, Numbers, Seq};
use if1_graph::TypeEntry;
use std::alloc::Global;

/// The labels of the types, in order.
pub fn labels_of(alloc: Global, types: &[TypeEntry]) -> Result<Numbers, NoMemory>
    ensures { IfOk result (λ ls. ls ≡ labels_in types.now) }
{
    let mut found = Seq::with_room(alloc, types.len())?;
    for entry in types {
        found.add(entry.label)?;
    }
    Ok(found)
}

/// The number beside a label, 0 where there is none.
pub fn number_at(labels: &[u32], numbers: &[u32], label: u32) -> u32
    requires { IsStrictlyIncreasing labels.now }
    ensures { result ≡ number_at labels.now numbers.now label }
{
    match labels.binary_search(&label) {
        Ok(place) => number_in(numbers, place),
        Err(_) => 0,
    }
}

/// The number at a place, 0 where there is none.
pub fn number_in(numbers: &[u32], place: usize) -> u32
    ensures { result ≡ get_or numbers.now place 0 }
{
    match numbers.get(place) {
        Some(number) => *number,
        None => 0,
    }
}
