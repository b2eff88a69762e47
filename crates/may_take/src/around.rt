//! What the graphs inside a compound node depend on of the node.
ghost use Rattle.std.specs.Prelude.{◌≡◌, ◌&&◌, ◌||◌, not, ℕ, [], ◌∷◌, ◌++◌, drop, All, AllPairs, IfOk, OnOk, if◌then◌else◌};
ghost use Rattle.std.specs.List.{list_any};
ghost use Rattle.if1_graph.specs.declared.graph.Graph.TheViews.{out-Graph};
ghost use Rattle.if1_graph.specs.Normal.{Precedes};
ghost use Rattle.if1_graph.specs.Ports.{results_at};
ghost use Rattle.if1_graph.specs.Units.{results};
ghost use Rattle.if1_marks.specs.Given.{is_given_to, is_given_to_loop};
ghost use Rattle.may_take.specs.Ports.{has};
ghost use Rattle.may_take.specs.Around.{insides, is_in_turns, IsAroundOf};

use crate::looking::Looked;
use crate::port_set::PortSet;
use flow_value::{NoMemory, Numbers, Seq, item_at};
use if1_graph::{Compound, Edge, Graph};
use if1_ports::{edges_into, greatest_port};
use std::alloc::Global;

/// What the graphs inside a compound node depend on of the node.
#[derive(Drop)]
pub struct Around {
    /// The operation.
    pub compound: Compound,
    /// The number of inputs of the node.
    pub width: u32,
    /// The number of results of its first graph.
    pub first: u32,
    /// The inputs that the node is given.
    pub given: PortSet,
    /// The inputs that its second or third graph uses.
    pub turns: PortSet,
}

// the inputs that are given in one of the parts from a place on
fn given_in_some(alloc: Global, parts: &[Looked], from: usize) -> Result<PortSet, NoMemory>
    ensures { IfOk result (λ r. (port : ℕ) → has r port ≡ list_any (λ g. g.is_given port) (drop from (insides parts.now))) }
{
    let mut ports = Seq::new(alloc);
    for place in from..parts.len() {
        ports.extend(parts[place].inputs.given.as_slice())?;
    }
    Ok(PortSet::of(ports))
}

fn is_used_later(parts: &[Looked], port: u32) -> bool
    ensures { result ≡ list_any (λ g. g.is_used port) (drop 1 (insides parts.now)) }
{
    for place in 1..parts.len() {
        if parts[place].inputs.used.has(port) {
            return true;
        }
    }
    false
}

fn add_unless(ports: &mut Numbers, port: u32, unwanted: bool) -> Result<(), NoMemory>
    ensures { OnOk result (ports.new ≡ (if unwanted then ports.old else ports.old ++ port ∷ [])) }
{
    if unwanted {
        return Ok(());
    }
    ports.add(port)
}

fn unused_later(alloc: Global, ports: &[u32], parts: &[Looked]) -> Result<PortSet, NoMemory>
    ensures { IfOk result (λ r. (port : ℕ) → has r port ≡ (has ports.now port && not (list_any (λ g. g.is_used port) (drop 1 (insides parts.now))))) }
{
    let mut kept = Seq::new(alloc);
    for port in ports {
        let used = is_used_later(parts, *port);
        add_unless(&mut kept, *port, used)?;
    }
    Ok(PortSet::of(kept))
}

fn given_to_loop(alloc: Global, parts: &[Looked]) -> Result<PortSet, NoMemory>
    ensures { IfOk result (λ r. (port : ℕ) → has r port ≡ is_given_to_loop (insides parts.now) port) }
{
    match item_at(parts, 0) {
        Some(first) => unused_later(alloc, first.inputs.given.as_slice(), parts),
        None => Ok(PortSet::of(Seq::new(alloc))),
    }
}

fn given_to(alloc: Global, compound: Compound, parts: &[Looked]) -> Result<PortSet, NoMemory>
    ensures { IfOk result (λ r. (port : ℕ) → has r port ≡ is_given_to compound (insides parts.now) port) }
{
    match compound {
        Compound::Select => given_in_some(alloc, parts, 1),
        Compound::TagCase => given_in_some(alloc, parts, 0),
        Compound::LoopA | Compound::LoopB => given_to_loop(alloc, parts),
        Compound::ForAll => Ok(PortSet::of(Seq::new(alloc))),
    }
}

fn used_in_turns(alloc: Global, parts: &[Looked]) -> Result<PortSet, NoMemory>
    ensures { IfOk result (λ r. (port : ℕ) → has r port ≡ is_in_turns (insides parts.now) port) }
{
    let mut ports = Seq::new(alloc);
    if parts.len() < 3 {
        return Ok(PortSet::of(ports));
    }
    ports.extend(parts[1].inputs.used.as_slice())?;
    ports.extend(parts[2].inputs.used.as_slice())?;
    Ok(PortSet::of(ports))
}

fn results_of(graph: &Graph) -> u32
    requires { AllPairs Precedes (out-Graph graph.now).edges }
    ensures { result ≡ results graph.now }
{
    greatest_port(edges_into(graph.edges.as_slice(), 0))
}

fn first_results(graphs: &[Graph]) -> u32
    requires { All (λ g. AllPairs Precedes (out-Graph g).edges) graphs.now }
    ensures { result ≡ results_at graphs.now 0 }
{
    if graphs.is_empty() {
        return 0;
    }
    results_of(&graphs[0])
}

/// What the graphs inside a compound node depend on of the node, by the edges into it and what its
/// graphs do with their inputs.
pub fn around_of(
    alloc: Global,
    compound: Compound,
    inputs: &[Edge],
    graphs: &[Graph],
    parts: &[Looked],
) -> Result<Around, NoMemory>
    requires { All (λ g. AllPairs Precedes (out-Graph g).edges) graphs.now }
    ensures { IfOk result (IsAroundOf compound inputs.now graphs.now (insides parts.now)) }
{
    let given = given_to(alloc, compound, parts)?;
    let turns = used_in_turns(alloc, parts)?;
    Ok(Around {
        compound,
        width: greatest_port(inputs),
        first: first_results(graphs),
        given,
        turns,
    })
}
