//! The outlines of types beside their labels.
ghost use Rattle.std.specs.List.Sorted.{IsStrictlyIncreasing};

use crate::outline::Outline;
use flow_value::{Numbers, Seq};

/// What ports depend on of what the labels of a type table stand for.
#[derive(Drop)]
pub struct Outlines {
    /// The labels, rising.
    pub labels: Numbers,
    /// What is known of each.
    pub rows: Seq<Outline>,
    ghost rising: { IsStrictlyIncreasing labels },
}
