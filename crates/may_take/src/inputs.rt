//! What a graph does with its inputs.
ghost use Rattle.std.specs.Prelude.{◌≡◌, ◌&&◌, ◌||◌, ℕ, IfOk, OnOk, map};
ghost use Rattle.std.specs.List.{list_any};
ghost use Rattle.std.specs.List.Sorted.{IsStrictlyIncreasing};
ghost use Rattle.if1_graph.specs.Ports.{leaves};
ghost use Rattle.if1_marks.specs.Aggregates.{is_aggregate};
ghost use Rattle.may_take.specs.Ports.{has};
ghost use Rattle.may_take.specs.Uses.{consumes_inside};
ghost use Rattle.may_take.specs.Consuming.{is_given_by};

use crate::consuming::is_aggregate;
use crate::port_set::PortSet;
use crate::uses::{NodeUse, does_consume_inside};
use flow_value::{NoMemory, Numbers, Seq};
use if1_graph::{Edge, Origin, TypeEntry};
use std::alloc::Global;

/// What a graph does with its inputs.
#[derive(Drop)]
pub struct Inputs {
    /// The inputs that an edge leaves.
    pub used: PortSet,
    /// The inputs that are given.
    pub given: PortSet,
}

// the input of the graph from which an edge comes is added, if it comes from one and the flag is set
fn add_input(ports: &mut Numbers, from: &Origin, flag: bool) -> Result<(), NoMemory>
    ensures { OnOk result ((port : ℕ) → has ports.new port ≡ has (ports.old) port || (leaves 0 port from.now && flag)) }
{
    match from {
        Origin::Port(0, port) if flag => ports.add(*port),
        _ => Ok(()),
    }
}

fn used_ports(alloc: Global, edges: &[Edge]) -> Result<PortSet, NoMemory>
    ensures { IfOk result (λ r. (port : ℕ) → has r port ≡ list_any (λ e. leaves 0 port e.from) edges.now) }
{
    let mut ports = Seq::new(alloc);
    for edge in edges {
        add_input(&mut ports, &edge.from, true)?;
    }
    Ok(PortSet::of(ports))
}

// an aggregate goes where it is consumed, other than by a call
fn is_given_by(types: &[TypeEntry], labels: &[u32], uses: &[NodeUse], edge: &Edge) -> bool
    requires types { IsStrictlyIncreasing (map (λ e. e.label) types.now) }
    requires labels { IsStrictlyIncreasing labels.now }
    ensures { result ≡ is_given_by types.now labels.now uses.now edge.now }
{
    if !is_aggregate(types, edge.ty) {
        return false;
    }
    does_consume_inside(labels, uses, edge.node, edge.port)
}

fn given_ports(
    alloc: Global,
    types: &[TypeEntry],
    labels: &[u32],
    uses: &[NodeUse],
    edges: &[Edge],
) -> Result<PortSet, NoMemory>
    requires types { IsStrictlyIncreasing (map (λ e. e.label) types.now) }
    requires labels { IsStrictlyIncreasing labels.now }
    ensures { IfOk result (λ r. (port : ℕ) → has r port ≡ list_any (λ e. leaves 0 port e.from && is_given_by types.now labels.now uses.now e) edges.now) }
{
    let mut ports = Seq::new(alloc);
    for edge in edges {
        let given = is_given_by(types, labels, uses, edge);
        add_input(&mut ports, &edge.from, given)?;
    }
    Ok(PortSet::of(ports))
}

/// What a graph of these edges does with its inputs, by what its nodes consume.
pub fn inputs_by(
    alloc: Global,
    types: &[TypeEntry],
    labels: &[u32],
    uses: &[NodeUse],
    edges: &[Edge],
) -> Result<Inputs, NoMemory>
    requires types { IsStrictlyIncreasing (map (λ e. e.label) types.now) }
    requires labels { IsStrictlyIncreasing labels.now }
    ensures used { IfOk result (λ r. (port : ℕ) → has r.used port ≡ list_any (λ e. leaves 0 port e.from) edges.now) }
    ensures given { IfOk
        result
        (λ r. (port : ℕ) → has r.given port ≡ list_any (λ e. leaves 0 port e.from && is_given_by types.now labels.now uses.now e) edges.now) }
{
    let used = used_ports(alloc, edges)?;
    let given = given_ports(alloc, types, labels, uses, edges)?;
    Ok(Inputs { used, given })
}
