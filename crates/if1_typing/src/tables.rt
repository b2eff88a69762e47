//! The types of a unit by number, and those of its functions by name.
ghost use Rattle.std.specs.Prelude.{◌≡◌, ◌==◌, IfOk, OnOk, ℕ, List, bytes_eq, map, Some, None, if◌then◌else◌};
ghost use Rattle.std.specs.List.Sorted.{IsStrictlyIncreasing};
ghost use Rattle.indexmap.specs.IndexMap.{get_by};
ghost use Rattle.if1_graph.specs.Formed.{function_named};
ghost use Rattle.if1_graph.specs.Tables.{or_else};
ghost use Rattle.if1_types.specs.Numbering.{IsNumbering};
ghost use Rattle.if1_types.specs.Tables as numbers_of;
ghost use Rattle.if1_typing.specs.Tables as spec;
ghost use Rattle.if1_typing.specs.Tables.{table_of};

use crate::known::Known;
use flow_value::{NoMemory, Numbers, Seq};
use if1_graph::{Graph, TypeEntry};
use if1_types::{Sorts, number_at};
use indexmap::IndexMap;
use std::alloc::Global;

impl Known {
    /// The number of what a label stands for, 0 where it stands for nothing.
    pub fn number(&self, label: u32) -> u32
        ensures { result ≡ spec.number (table_of self.now) label }
    {
        self.sorts.number(label)
    }

    /// Whether a label is that of a function type.
    pub fn is_function(&self, label: u32) -> bool
        ensures { result ≡ (table_of self.now).is_function label }
    {
        number_at(self.sorts.labels.as_slice(), self.codes.as_slice(), label) == 3
    }

    /// The number of the type of a named function, 0 where there is none.
    pub fn callee(&self, name: &[u8]) -> u32
        ensures { result ≡ (table_of self.now).callees name.now }
    {
        match self.callees.get(name) {
            Some(number) => *number,
            None => 0,
        }
    }
}

fn codes_of(alloc: Global, types: &[TypeEntry]) -> Result<Numbers, NoMemory>
    ensures { IfOk result (λ cs. cs ≡ map (λ e. e.code) types.now) }
{
    let mut codes = Seq::with_room(alloc, types.len())?;
    for entry in types {
        codes.add(entry.code)?;
    }
    Ok(codes)
}

fn put(
    alloc: Global,
    callees: &mut IndexMap<Vec<u8>, u32>,
    name: &[u8],
    number: u32,
) -> Result<(), NoMemory>
    ensures { OnOk result ((text : List ℕ) → get_by (λ k. bytes_eq text k.items) callees.new ≡ or_else (get_by (λ k. bytes_eq text k.items) callees.old) (if bytes_eq name.now text then Some number else None)) }
{
    if callees.contains_key(name) {
        return Ok(());
    }
    callees.insert(Vec::from_slice(alloc, name)?, number)?;
    Ok(())
}

/// The numbers of the types of functions by their names.
fn callees_of(
    alloc: Global,
    sorts: &Sorts,
    graphs: &[Graph],
) -> Result<IndexMap<Vec<u8>, u32>, NoMemory>
    requires { IsStrictlyIncreasing sorts.now.labels }
    ensures { IfOk result (λ m. (text : List ℕ) → spec.or_zero (get_by (λ k. bytes_eq text k.items) m) ≡ spec.type_number (numbers_of.number_at sorts.now.labels sorts.now.numbers) (function_named graphs.now text)) }
{
    let mut callees = IndexMap::new(alloc);
    for graph in graphs {
        put(
            alloc,
            &mut callees,
            graph.name.as_slice(),
            sorts.number(graph.fun),
        )?;
    }
    Ok(callees)
}

/// What the labels of types stand for, and what the types of the functions are. Takes time near linear
/// in the types and functions.
pub fn known_of(
    alloc: Global,
    sorts: Sorts,
    types: &[TypeEntry],
    graphs: &[Graph],
) -> Result<Known, NoMemory>
    requires rising { IsStrictlyIncreasing (map (λ e. e.label) types.now) }
    requires numbers { IsNumbering types.now sorts }
    ensures sorts { IfOk result (λ k. k.sorts ≡ sorts) }
    ensures tells { IfOk result (λ k. spec.Tells types.now graphs.now (table_of k)) }
{
    let callees = callees_of(alloc, &sorts, graphs)?;
    let codes = codes_of(alloc, types)?;
    Ok(Known {
        sorts,
        callees,
        codes,
    })
}
