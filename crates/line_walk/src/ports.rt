//! What is carried to the ports of changed fields.
ghost use Rattle.std.specs.Prelude.{◌≡◌, ◌∷◌, ◌<◌, ℕ, suc, [], None, replicate, length, get_or, drop, slice_index, IfOk, OnOk};
ghost use Rattle.lowering.specs.declared.feed.Carried.{Carried};
ghost use Rattle.if1_graph.specs.Units.{greatest};
ghost use Rattle.line_types.specs.Traces.{changed};
ghost use Rattle.line_labels.specs.Needs.{added};
ghost use Rattle.line_walk.specs.Met.{ports, carried_ports};

use flow_value::{NoMemory, Seq};
use line_labels::Needs;
use lowering::Carried;
use std::alloc::Global;

/// What stands behind the first one.
pub fn rest(carried: &[Carried]) -> &[Carried]
    ensures { result.now ≡ drop 1 carried.now }
{
    match carried {
        [] => carried,
        [_, rest @ ..] => rest,
    }
}

/// The greatest of some places.
fn greatest(places: &[u32]) -> u32
    ensures { result ≡ greatest places.now }
{
    let mut most = 0;
    for place in places {
        most = most.max(*place);
    }
    most
}

/// So many ports, to which nothing is carried.
#[tactic(auto, using(crate::proofs::Tables::nothing_more))]
fn absents(alloc: Global, count: usize) -> Result<Seq<Option<Carried>>, NoMemory>
    ensures { IfOk result (λ os. os ≡ replicate count None) }
{
    let mut ports = Seq::new(alloc);
    for place in 0..count {
        ports.add(None)?;
    }
    Ok(ports)
}

/// One of those that are carried.
pub fn item_of(carried: &[Carried], place: usize) -> Carried
    requires { place < length carried.now }
    ensures { (other : Carried) → result ≡ get_or carried.now place other }
{
    carried[place]
}

/// What is carried to so many ports, the first for the place 0. Where a place stands twice, the first
/// one counts.
fn filled(
    alloc: Global,
    count: usize,
    places: &[u32],
    carried: &[Carried],
) -> Result<Seq<Option<Carried>>, NoMemory>
    requires { (k : ℕ) → slice_index places.now k < count }
    ensures { IfOk result (λ os. os ≡ ports 0 count places.now carried.now) }
{
    let mut ports = absents(alloc, count)?;
    let mut left = places.len().min(carried.len());
    while left > 0 {
        left -= 1;
        let one = item_of(carried, left);
        ports.set(places[left] as usize, Some(one));
    }
    Ok(ports)
}

/// Adds what is carried to a port.
fn add_port(needs: &mut Needs, port: Option<Carried>) -> Result<(), NoMemory>
    ensures { OnOk result (needs.new ≡ added needs.old (carried_ports (port ∷ []))) }
{
    match port {
        Some(carried) => needs.add(carried),
        None => Ok(()),
    }
}

/// Adds what is carried to ports.
fn add_ports(needs: &mut Needs, ports: &[Option<Carried>]) -> Result<(), NoMemory>
    ensures { OnOk result (needs.new ≡ added needs.old (carried_ports ports.now)) }
{
    for port in ports {
        add_port(needs, *port)?;
    }
    Ok(())
}

/// Adds what is carried to the ports of changed fields.
#[tactic(auto, using(crate::proofs::Tables::ports_changed))]
pub fn add_changed(
    alloc: Global,
    needs: &mut Needs,
    places: &[u32],
    carried: &[Carried],
) -> Result<(), NoMemory>
    ensures { OnOk result (needs.new ≡ added needs.old (changed 0 (suc (greatest places.now)) places.now carried.now)) }
{
    let count = greatest(places) as usize + 1;
    let ports = filled(alloc, count, places, carried)?;
    add_ports(needs, ports.as_slice())
}
