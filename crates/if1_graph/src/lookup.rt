//! Types and nodes by their labels.
ghost use Rattle.std.specs.Prelude.{◌≡◌, map, option_and_then};
ghost use Rattle.std.specs.Option.{option_copied};
ghost use Rattle.std.specs.List.Sorted.{IsStrictlyIncreasing};
ghost use Rattle.if1_graph.specs.Tables.{if_keyed};
ghost use Rattle.if1_graph.specs.Types.{entry_at};
ghost use Rattle.if1_graph.specs.Units.{node_at, label_of};

use crate::graph::{Node, TypeEntry};
use flow_value::item_at;

/// The type of a label, where the types stand by rising label.
pub fn entry_of(types: &[TypeEntry], label: u32) -> Option<&TypeEntry>
    requires { IsStrictlyIncreasing (map (λ e. e.label) types.now) }
    ensures { option_copied result ≡ entry_at types.now label }
{
    let mut low = 0;
    let mut high = types.len();
    while low < high {
        let middle = low + (high - low) / 2;
        if types[middle].label < label {
            low = middle + 1;
        } else {
            high = middle;
        }
    }
    entry_labelled(item_at(types, low), label)
}

// an entry of another label is no answer
fn entry_labelled(entry: Option<&TypeEntry>, label: u32) -> Option<&TypeEntry>
    ensures { option_copied result ≡ option_and_then (if_keyed (λ e. e.label) label) (option_copied entry.entry) }
{
    match entry {
        Some(entry) if entry.label == label => Some(entry),
        _ => None,
    }
}

/// The node of a label, where the nodes stand by rising label.
pub fn node_of(nodes: &[Node], label: u32) -> Option<&Node>
    requires { IsStrictlyIncreasing (map label_of nodes.now) }
    ensures { option_copied result ≡ node_at nodes.now label }
{
    let mut low = 0;
    let mut high = nodes.len();
    while low < high {
        let middle = low + (high - low) / 2;
        if nodes[middle].label < label {
            low = middle + 1;
        } else {
            high = middle;
        }
    }
    node_labelled(item_at(nodes, low), label)
}

// a node of another label is no answer
fn node_labelled(node: Option<&Node>, label: u32) -> Option<&Node>
    ensures { option_copied result ≡ option_and_then (if_keyed label_of label) (option_copied node.entry) }
{
    match node {
        Some(node) if node.label == label => Some(node),
        _ => None,
    }
}
