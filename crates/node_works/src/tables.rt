//! What the nodes of a unit need of its types and functions.
ghost use Rattle.std.specs.Prelude.{◌≡◌, ◌≤◌, ℕ, IfOk, map, length};
ghost use Rattle.std.specs.List.Sorted.{IsStrictlyIncreasing};
ghost use Rattle.if1_graph.specs.Formed.{most};
ghost use Rattle.if1_graph.specs.Types.{sort_at};
ghost use Rattle.if1_ports.specs.Outlines.{outline_of, types_in};
ghost use Rattle.node_works.specs.Tables.{AreTablesOf, function_inputs};

use crate::counts::or_none;
use crate::functions::{Callee, functions_of};
use flow_value::NoMemory;
use if1_graph::{Graph, TypeEntry};
use if1_ports::{Outlines, arguments_in, outlines_of};
use if1_sound::Sound;
use if1_types::sorts_of;
use indexmap::IndexMap;
use std::alloc::Global;

/// What the nodes of a unit need of its types and functions.
#[derive(Drop)]
pub struct UnitTables {
    /// What the labels of the types stand for.
    pub types: Outlines,
    /// The functions by their names, of each name the first one.
    pub functions: IndexMap<Vec<u8>, Callee>,
}

fn types_of(alloc: Global, types: &[TypeEntry]) -> Result<Outlines, NoMemory>
    requires rising { IsStrictlyIncreasing (map (λ e. e.label) types.now) }
    requires few { length types.now ≤ most }
    ensures { IfOk result (λ o. (label : ℕ) → types_in o label ≡ outline_of (sort_at types.now label)) }
{
    let sorts = sorts_of(alloc, types)?;
    let outlines = outlines_of(alloc, &sorts, types)?;
    Ok(outlines)
}

/// What the nodes of a unit need of its types and functions. Near linear in the types and functions.
pub fn tables_of(alloc: Global, unit: &Sound) -> Result<UnitTables, NoMemory>
    ensures { IfOk result (AreTablesOf unit.now) }
{
    let whole = unit.unit();
    let types = types_of(alloc, whole.types.as_slice())?;
    let functions = functions_of(alloc, whole.graphs.as_slice())?;
    Ok(UnitTables { types, functions })
}

/// How many inputs a function has, by its type. Takes the time of a search among the types.
pub fn function_inputs(unit: &Sound, tables: &UnitTables, graph: &Graph) -> u32
    requires { AreTablesOf unit.now tables.now }
    ensures { result ≡ function_inputs unit.now graph.now }
{
    let _ = unit;
    or_none(arguments_in(tables.types.outline(graph.fun)))
}
