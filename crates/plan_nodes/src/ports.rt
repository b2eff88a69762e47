//! The ports of nodes.
ghost use Rattle.std.specs.Prelude.{◌≡◌, map, drop, IfOk};
ghost use Rattle.plan_nodes.specs.Ports.{given_port_by, port_by};

use flow_value::{NoMemory, Seq};
use gapped::Gapped;
use plan_builder::{given_port, port_of};
use plan_data::{Feed, Handled, Port};
use port_feeds::Filled;
use std::alloc::Global;

/// A port of a simple node or Call.
pub fn simple_port(filled: Filled) -> Port
    ensures { result ≡ port_by filled }
{
    port_of(filled.feed, filled.takes, filled.consumed)
}

fn compound_port(filled: Filled) -> Port
    ensures { result ≡ given_port_by filled }
{
    let copies = filled.consumed && !filled.takes;
    given_port(filled.feed, filled.takes, copies)
}

/// The ports of a simple node, or of a Call.
pub fn simple_ports(alloc: Global, filled: &[Filled]) -> Result<Seq<Port>, NoMemory>
    ensures { IfOk result (λ xs. xs ≡ map port_by filled.now) }
{
    let mut ports = Seq::with_room(alloc, filled.len())?;
    for one in filled {
        ports.add(simple_port(*one))?;
    }
    Ok(ports)
}

/// The ports of a simple node, of which few may be filled.
#[tactic(auto, using(crate::proofs::Spread::ports_spread))]
pub fn spread_ports(alloc: Global, filled: &Gapped<Filled>) -> Result<Gapped<Port>, NoMemory>
    ensures { IfOk result (λ xs. xs ≡ map port_by filled.now) }
{
    let kept = filled.kept();
    let gaps = Seq::from_slice(alloc, kept.gaps)?;
    let ports = simple_ports(alloc, kept.items)?;
    Ok(Gapped::new(simple_port(kept.filler), gaps, ports))
}

/// These ports, each of them kept.
pub fn all_ports(alloc: Global, ports: Seq<Port>) -> Gapped<Port>
    ensures { result ≡ ports }
{
    let unfilled = Port {
        feed: Feed::Literal(0),
        handled: Handled::Looks,
    };
    Gapped::all(alloc, unfilled, ports)
}

/// The ports of a Call behind the first one, which names the function.
pub fn call_ports(alloc: Global, filled: &[Filled]) -> Result<Seq<Port>, NoMemory>
    ensures { IfOk result (λ xs. xs ≡ map port_by (drop 1 filled.now)) }
{
    match filled {
        [] => Ok(Seq::new(alloc)),
        [_, arguments @ ..] => simple_ports(alloc, arguments),
    }
}

/// The ports of a compound node.
pub fn compound_ports(alloc: Global, filled: &[Filled]) -> Result<Seq<Port>, NoMemory>
    ensures { IfOk result (λ xs. xs ≡ map given_port_by filled.now) }
{
    let mut ports = Seq::with_room(alloc, filled.len())?;
    for one in filled {
        ports.add(compound_port(*one))?;
    }
    Ok(ports)
}
