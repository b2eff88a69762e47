//! The types of functions by their names.
ghost use Rattle.std.specs.Prelude.{◌≡◌, IfOk, OnOk, ℕ, List, bytes_eq, Some, None, if◌then◌else◌, option_map};
ghost use Rattle.indexmap.specs.IndexMap.{get_by};
ghost use Rattle.if1_graph.specs.Formed.{function_named};
ghost use Rattle.if1_graph.specs.Tables.{or_else};
ghost use Rattle.if1_graph.specs.declared.graph.Graph.TheViews.{out-Graph};
ghost use Rattle.if1_ports.specs.Outlines.{types_in};
ghost use Rattle.if1_ports.specs.Names.{callees_in, callee_of};

use crate::outline::Outline;
use crate::rows::Outlines;
use flow_value::NoMemory;
use if1_graph::Graph;
use indexmap::IndexMap;
use std::alloc::Global;

/// The types of functions by their names, of each name the first function's.
#[derive(Drop)]
pub struct Names {
    /// By name.
    pub map: IndexMap<Vec<u8>, Outline>,
}

impl Names {
    /// What the type of a named function is; nothing where there is no such function.
    pub fn callee(&self, name: &[u8]) -> Outline
        ensures { result ≡ callees_in self.now name.now }
    {
        match self.map.get(name) {
            Some(outline) => *outline,
            None => Outline::Nothing,
        }
    }
}

fn put(
    alloc: Global,
    names: &mut IndexMap<Vec<u8>, Outline>,
    name: &[u8],
    outline: Outline,
) -> Result<(), NoMemory>
    ensures { OnOk result ((text : List ℕ) → get_by (λ k. bytes_eq text k.items) names.new ≡ or_else (get_by (λ k. bytes_eq text k.items) names.old) (if bytes_eq name.now text then Some outline else None)) }
{
    if names.contains_key(name) {
        return Ok(());
    }
    names.insert(Vec::from_slice(alloc, name)?, outline)?;
    Ok(())
}

/// The types of the functions of a unit by their names.
pub fn names_of(alloc: Global, types: &Outlines, graphs: &[Graph]) -> Result<Names, NoMemory>
    ensures { IfOk result (λ n. (text : List ℕ) → callees_in n text ≡ callee_of (types_in types.now) graphs.now text) }
{
    let mut map = IndexMap::new(alloc);
    for graph in graphs {
        put(
            alloc,
            &mut map,
            graph.name.as_slice(),
            types.outline(graph.fun),
        )?;
    }
    Ok(Names { map })
}
