//! The ports of nodes that do a returns on what is collected.
ghost use Rattle.std.specs.Prelude.{◌≡◌, ◌+◌, ◌++◌, ◌∷◌, [], suc, IfOk, OnOk};
ghost use Rattle.plan_data.specs.declared.plan.Feed.TheVariants as Feed;
ghost use Rattle.plan_nodes.specs.Ports.{collected_by, kept_ports, last_by, last_ports, number_after, port_by, read_ports, whole_by, whole_ports};

use crate::ports::simple_port;
use flow_value::{NoMemory, Seq};
use plan_builder::{Reading, multiple_of, port_of};
use plan_data::{Feed, Port};
use port_feeds::Filled;
use std::alloc::Global;

// behind the inputs that are no multiples
fn collection(plain: u32, number: u32) -> Result<Feed, NoMemory>
    ensures { IfOk result (λ feed. feed ≡ Feed.Input (plain + number)) }
{
    match plain.checked_add(number) {
        Some(place) => Ok(Feed::Input(place)),
        None => Err(NoMemory),
    }
}

fn last_port(plain: u32, number: u32, filled: Filled) -> Result<Port, NoMemory>
    ensures { IfOk result (λ port. port ≡ last_by plain number filled) }
{
    let feed = collection(plain, number)?;
    Ok(port_of(feed, filled.takes, filled.consumed))
}

fn collected_port(plain: u32, number: u32, filled: Filled) -> Result<Port, NoMemory>
    ensures { IfOk result (λ port. port ≡ collected_by plain number filled) }
{
    let feed = collection(plain, number)?;
    let takes = filled.takes || !filled.aggregate;
    Ok(port_of(feed, takes, filled.consumed))
}

fn only(alloc: Global, port: Port) -> Result<Seq<Port>, NoMemory>
    ensures { IfOk result (λ xs. xs ≡ port ∷ []) }
{
    let mut ports = Seq::new(alloc);
    ports.add(port)?;
    Ok(ports)
}

fn last_ports(
    alloc: Global,
    plain: u32,
    number: u32,
    filled: &[Filled],
) -> Result<Seq<Port>, NoMemory>
    ensures { IfOk result (λ xs. xs ≡ last_ports plain number filled.now) }
{
    match filled {
        [] => Ok(Seq::new(alloc)),
        [one, ..] => {
            let port = last_port(plain, number, *one)?;
            only(alloc, port)
        }
    }
}

fn kept_behind(
    alloc: Global,
    plain: u32,
    number: u32,
    first: Filled,
    own: Filled,
) -> Result<Seq<Port>, NoMemory>
    ensures { IfOk result (λ xs. xs ≡ port_by first ∷ collected_by plain number own ∷ []) }
{
    let mut ports = only(alloc, simple_port(first))?;
    ports.add(collected_port(plain, number, own)?)?;
    Ok(ports)
}

fn kept_ports(
    alloc: Global,
    plain: u32,
    number: u32,
    filled: &[Filled],
) -> Result<Seq<Port>, NoMemory>
    ensures { IfOk result (λ xs. xs ≡ kept_ports plain number filled.now) }
{
    match filled {
        [] => Ok(Seq::new(alloc)),
        [first, own, _, ..] => kept_behind(alloc, plain, number, *first, *own),
        [own, ..] => {
            let port = collected_port(plain, number, *own)?;
            only(alloc, port)
        }
    }
}

fn next_number(number: u32) -> Result<u32, NoMemory>
    ensures { IfOk result (λ next. next ≡ suc number) }
{
    match number.checked_add(1) {
        Some(next) => Ok(next),
        None => Err(NoMemory),
    }
}

fn add_port(plain: u32, number: u32, filled: Filled, ports: &mut Seq<Port>) -> Result<u32, NoMemory>
    ensures ports { OnOk result (ports.new ≡ ports.old ++ whole_by plain number filled ∷ []) }
    ensures next { IfOk result (λ next. next ≡ number_after plain number filled) }
{
    match multiple_of(plain, filled.feed) {
        Some(_) => {
            ports.add(collected_port(plain, number, filled)?)?;
            next_number(number)
        }
        None => {
            ports.add(simple_port(filled))?;
            Ok(number)
        }
    }
}

/// The ports of a node that reads each multiple whole.
pub fn whole_ports(
    alloc: Global,
    plain: u32,
    number: u32,
    filled: &[Filled],
) -> Result<Seq<Port>, NoMemory>
    ensures { IfOk result (λ xs. xs ≡ whole_ports plain number filled.now) }
{
    let mut ports = Seq::with_room(alloc, filled.len())?;
    let mut next = number;
    for one in filled {
        next = add_port(plain, next, *one, &mut ports)?;
    }
    Ok(ports)
}

/// The ports of a node that reads multiples so, on what is collected for it from the collection of this
/// number on.
pub fn read_ports(
    alloc: Global,
    reading: Reading,
    plain: u32,
    number: u32,
    filled: &[Filled],
) -> Result<Seq<Port>, NoMemory>
    ensures { IfOk result (λ xs. xs ≡ read_ports reading plain number filled.now) }
{
    match reading {
        Reading::Last(_) => last_ports(alloc, plain, number, filled),
        Reading::Kept(_, _) => kept_ports(alloc, plain, number, filled),
        Reading::Whole => whole_ports(alloc, plain, number, filled),
    }
}
