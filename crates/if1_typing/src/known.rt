//! What is known of the types and functions of a unit.
ghost use Rattle.std.specs.List.Sorted.{IsStrictlyIncreasing};

use flow_value::Numbers;
use if1_types::Sorts;
use indexmap::IndexMap;

/// What the labels of a unit's types stand for, by number, and what the types of its functions are.
#[derive(Drop)]
pub struct Known {
    /// What the labels stand for.
    pub sorts: Sorts,
    /// The numbers of the types of functions by their names, of each name the first function's.
    pub callees: IndexMap<Vec<u8>, u32>,
    /// The code of each label's kind of type.
    pub codes: Numbers,
    ghost sorted: { IsStrictlyIncreasing sorts.labels },
}
