//! What literals carry, as cells.
ghost use Rattle.std.specs.Prelude.{◌≡◌, map, IfOk};
ghost use Rattle.std.specs.List.Sorted.{IsStrictlyIncreasing};
ghost use Rattle.std.specs.Option.{option_copied};
ghost use Rattle.if1_graph.specs.declared.graph.Graph.TheViews.{out-Graph};
ghost use Rattle.if1_graph.specs.declared.graph.Unit1.{Unit1};
ghost use Rattle.if1_graph.specs.Formed.{want_at};
ghost use Rattle.if1_graph.specs.Units.{label_of};
ghost use Rattle.graph_meaning.specs.Carried.{Value};
ghost use Rattle.graph_meaning.specs.Networks.{fixed, or_explicit};
ghost use Rattle.run_cells.specs.Held.{held};
ghost use Rattle.run_store.specs.Stored as stored;
ghost use Rattle.port_feeds.specs.Wanted.{is_name, value_by, want_by, want_in};

use flow_value::{Cause, NoMemory, Val};
use if1_graph::{
    Graph, Node, Simple, TypeEntry, TypeKind, Want, basic_of, entry_of, kind_of, node_of,
    operand_of, simple_of,
};
use if1_read::literal;
use run_cells::{Cell, Seen, cell_of, copied};
use std::alloc::Global;

fn want_by(op: Option<Simple>, port: u32) -> Option<Want>
    ensures { result ≡ want_by op port }
{
    let (_, want) = operand_of(op?, port)?;
    Some(want)
}

fn want_in(node: Option<&Node>, port: u32) -> Option<Want>
    ensures { result ≡ want_in (option_copied node.entry) port }
{
    match node {
        Some(node) => want_by(simple_of(node.op), port),
        None => None,
    }
}

/// What a port of a node wants, where the node is a simple one. Takes a search among the nodes.
pub fn want_at(graph: &Graph, label: u32, port: u32) -> Option<Want>
    requires { IsStrictlyIncreasing (map label_of (out-Graph graph.now).nodes) }
    ensures { result ≡ want_at graph.now label port }
{
    want_in(node_of(graph.nodes.as_slice(), label), port)
}

fn is_name(want: Option<Want>) -> bool
    ensures { result ≡ is_name want }
{
    matches!(want, Some(Want::Function | Want::Reduction))
}

fn value_by(alloc: Global, entry: Option<&TypeEntry>, text: &[u8]) -> Result<Option<Val>, NoMemory>
    ensures { IfOk result (λ v. v ≡ value_by (option_copied entry.entry) text.now) }
{
    let Some(entry) = entry else {
        return Ok(None);
    };
    match (kind_of(entry.code), basic_of(entry.first)) {
        (Some(TypeKind::Basic), Some(basic)) => literal(alloc, basic, text),
        _ => Ok(None),
    }
}

fn or_explicit(value: Option<Val>) -> Val
    ensures { Value result ≡ or_explicit value }
{
    match value {
        Some(value) => value,
        None => Val::Err(Cause::Explicit),
    }
}

/// What a literal of a type carries at a port with this want, in a cell.
pub fn literal_cell(
    alloc: Global,
    types: &[TypeEntry],
    want: Option<Want>,
    ty: u32,
    text: &[u8],
) -> Result<Cell, NoMemory>
    requires { IsStrictlyIncreasing (map (λ e. e.label) types.now) }
    ensures { IfOk result (λ c. (u : Unit1) → u.types ≡ types.now → stored.owned_in (held c) ≡ fixed u want ty text.now) }
{
    if is_name(want) {
        return copied(alloc, Seen::Name(text));
    }
    let value = value_by(alloc, entry_of(types, ty), text)?;
    cell_of(alloc, or_explicit(value))
}
