//! What is told of the ports of simple nodes.
ghost use Rattle.std.specs.Prelude.{◌≡◌, ◌-◌, ◌≤◌, IfOk};
ghost use Rattle.std.specs.Option.{option_copied};
ghost use Rattle.plan_builder.specs.Ways.{multiple_port};
ghost use Rattle.plan_nodes.specs.Ports.{has_left, has_whole, left_at, told_in};

use flow_value::NoMemory;
use gapped::Gapped;
use if1_graph::Simple;
use port_feeds::Filled;
use std::alloc::Global;

fn has_left(port: Option<&Filled>) -> bool
    ensures { result ≡ has_left (option_copied port.entry) }
{
    match port {
        Some(port) => port.aggregate && !port.takes,
        None => false,
    }
}

fn has_whole(port: Option<&Filled>) -> bool
    ensures { result ≡ has_whole (option_copied port.entry) }
{
    match port {
        Some(port) => port.aggregate,
        None => false,
    }
}

fn first_left(filled: &[Filled]) -> bool
    ensures { result ≡ left_at filled.now 1 }
{
    has_left(filled.first())
}

fn second_left(filled: &[Filled]) -> bool
    ensures { result ≡ left_at filled.now 2 }
{
    has_left(filled.get(1))
}

/// Whether an aggregate fills the port of a node's own multiple, and is not taken.
pub fn own_left(filled: &[Filled], row: Simple) -> bool
    ensures { result ≡ left_at filled.now (multiple_port row) }
{
    match row {
        Simple::FinalValue => first_left(filled),
        _ => second_left(filled),
    }
}

/// What is told of the ports of a node of this row for the copies that it counts.
pub fn told_of(filled: &[Filled], row: Simple) -> bool
    ensures { result ≡ told_in filled.now row }
{
    match row {
        Simple::FinalValue => first_left(filled),
        Simple::AGather | Simple::Reduce(_) => second_left(filled),
        Simple::AFill => has_whole(filled.get(2)),
        _ => false,
    }
}

/// The same of ports of which few may be filled.
pub fn all_told(alloc: Global, filled: &Gapped<Filled>, row: Simple) -> Result<bool, NoMemory>
    ensures { IfOk result (λ told. told ≡ told_in filled.now row) }
{
    match row {
        Simple::RBuild | Simple::RReplace => Ok(false),
        _ => {
            let listed = filled.listed(alloc)?;
            Ok(told_of(listed.as_slice(), row))
        }
    }
}
