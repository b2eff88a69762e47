//! Sets of ports.
ghost use Rattle.std.specs.Prelude.{◌≡◌, ℕ};
ghost use Rattle.std.specs.List.Sorted.{IsStrictlyIncreasing};
ghost use Rattle.may_take.specs.Ports.{has};

use flow_value::{Numbers, Seq};
use std::marker::Model;

/// Ports, each once and rising.
#[derive(Drop)]
pub struct PortSet {
    ports: Numbers,
}

impl Model for PortSet {
    ghost use Rattle.std.specs.Prelude.{List, ℕ};
    ghost use Rattle.std.specs.List.Sorted.{IsStrictlyIncreasing};

    ghost Value = { List ℕ };

    ghost view = { λ s. s.ports };

    ghost invariant = { λ s. IsStrictlyIncreasing s.ports };
}

fn sort_once(ports: &mut Vec<u32>)
    ensures up { IsStrictlyIncreasing ports.new.items }
    ensures same { (port : ℕ) → has ports.new.items port ≡ has ports.old.items port }
{
    ports.sort_unstable();
    ports.dedup();
}

impl PortSet {
    /// The set of these ports.
    pub fn of(ports: Numbers) -> PortSet
        ensures { (port : ℕ) → has result port ≡ has ports port }
    {
        let mut items = ports.into_vec();
        sort_once(&mut items);
        PortSet {
            ports: Seq::from_vec(items),
        }
    }

    /// Whether a port is one of them. Halves the list until it is found.
    pub fn has(&self, port: u32) -> bool
        ensures { result ≡ has self.now port }
    {
        match self.ports.as_slice().binary_search(&port) {
            Ok(_) => true,
            Err(_) => false,
        }
    }

    /// The ports.
    pub fn as_slice(&self) -> &[u32]
        ensures { result.now ≡ self.now }
    {
        self.ports.as_slice()
    }
}
