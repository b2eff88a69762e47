//! What nodes consume.
ghost use Rattle.std.specs.Prelude.{◌≡◌};
ghost use Rattle.std.specs.Option.{option_copied};
ghost use Rattle.std.specs.List.Sorted.{IsStrictlyIncreasing};
ghost use Rattle.if1_marks.specs.Given.{is_operand_consumed};
ghost use Rattle.if1_graph.specs.Rows.{operand_of};
ghost use Rattle.may_take.specs.Uses.{is_given_at, is_given_in, is_consumed_inside, is_consumed, use_at, inside_of, consumed_of, consumes_inside, consumes_by};

use crate::around::Around;
use crate::inputs::Inputs;
use flow_value::item_at;
use if1_graph::{Simple, is_consumed as is_used_up, operand_of};

/// What is known of a node, as far as what it consumes.
#[derive(Drop)]
pub enum NodeUse {
    /// A call of the function at this place, if there is one.
    Call(Option<usize>),
    /// A compound node.
    Compound(Around),
    /// Another simple node.
    Simple(Simple),
    /// No operation.
    Nothing,
}

fn is_row_consumed(op: Simple, port: u32) -> bool
    ensures { result ≡ is_operand_consumed (operand_of op port) }
{
    match operand_of(op, port) {
        Some((how, _)) => is_used_up(how),
        None => false,
    }
}

fn is_given_in(inputs: Option<&Inputs>, port: u32) -> bool
    ensures { result ≡ is_given_in (option_copied inputs.entry) port }
{
    match inputs {
        Some(inputs) => inputs.given.has(port),
        None => false,
    }
}

fn is_given_at(functions: &[Inputs], place: Option<usize>, port: u32) -> bool
    ensures { result ≡ is_given_at functions.now place port }
{
    match place {
        Some(place) => is_given_in(item_at(functions, place), port),
        None => false,
    }
}

fn is_consumed_inside(node: &NodeUse, port: u32) -> bool
    ensures { result ≡ is_consumed_inside node.now port }
{
    match node {
        NodeUse::Call(_) => false,
        NodeUse::Compound(around) => around.given.has(port),
        NodeUse::Simple(op) => is_row_consumed(*op, port),
        NodeUse::Nothing => false,
    }
}

fn is_consumed(functions: &[Inputs], node: &NodeUse, port: u32) -> bool
    ensures { result ≡ is_consumed functions.now node.now port }
{
    match node {
        NodeUse::Call(place) => is_given_at(functions, *place, port.saturating_sub(1)),
        NodeUse::Compound(around) => around.given.has(port),
        NodeUse::Simple(op) => is_row_consumed(*op, port),
        NodeUse::Nothing => false,
    }
}

fn use_at<'a>(labels: &[u32], uses: &'a [NodeUse], label: u32) -> Option<&'a NodeUse>
    requires { IsStrictlyIncreasing labels.now }
    ensures { option_copied result ≡ use_at labels.now uses.now label }
{
    match labels.binary_search(&label) {
        Ok(place) => item_at(uses, place),
        Err(_) => None,
    }
}

fn inside_of(node: Option<&NodeUse>, port: u32) -> bool
    ensures { result ≡ inside_of (option_copied node.entry) port }
{
    match node {
        Some(node) => is_consumed_inside(node, port),
        None => false,
    }
}

fn consumed_of(functions: &[Inputs], node: Option<&NodeUse>, port: u32) -> bool
    ensures { result ≡ consumed_of functions.now (option_copied node.entry) port }
{
    match node {
        Some(node) => is_consumed(functions, node, port),
        None => false,
    }
}

/// Whether the node of a label, or the boundary for 0, consumes what is carried into a port, other than
/// by a call.
pub fn does_consume_inside(labels: &[u32], uses: &[NodeUse], label: u32, port: u32) -> bool
    requires { IsStrictlyIncreasing labels.now }
    ensures { result ≡ consumes_inside labels.now uses.now label port }
{
    if label == 0 {
        return true;
    }
    inside_of(use_at(labels, uses, label), port)
}

/// Whether the node of a label, or the boundary for 0, consumes what is carried into a port.
pub fn does_consume(
    functions: &[Inputs],
    labels: &[u32],
    uses: &[NodeUse],
    label: u32,
    port: u32,
) -> bool
    requires { IsStrictlyIncreasing labels.now }
    ensures { result ≡ consumes_by functions.now labels.now uses.now label port }
{
    if label == 0 {
        return true;
    }
    consumed_of(functions, use_at(labels, uses, label), port)
}
