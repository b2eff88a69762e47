//! The functions of a unit by their names.
ghost use Rattle.std.specs.Prelude.{◌≡◌, ℕ, List, bytes_eq, Some, None, if◌then◌else◌, All, AllPairs, IfOk, OnOk};
ghost use Rattle.indexmap.specs.IndexMap.{get_by};
ghost use Rattle.if1_graph.specs.declared.graph.Graph.TheViews.{out-Graph};
ghost use Rattle.if1_graph.specs.Normal.{Precedes};
ghost use Rattle.if1_graph.specs.Tables.{or_else};
ghost use Rattle.node_works.specs.Tables.{callee_named, callee_of};

use crate::results::results_of;
use flow_value::NoMemory;
use if1_graph::Graph;
use indexmap::IndexMap;
use std::alloc::Global;

/// A function of a unit.
#[derive(Clone, Copy)]
pub struct Callee {
    /// The number of its graph.
    pub number: u32,
    /// How many results it has.
    pub results: u32,
}

fn callee_of(graph: &Graph) -> Callee
    requires { AllPairs Precedes (out-Graph graph.now).edges }
    ensures { result ≡ callee_of graph.now }
{
    Callee {
        number: graph.number,
        results: results_of(graph),
    }
}

// an earlier function of the name stays
fn put(
    alloc: Global,
    functions: &mut IndexMap<Vec<u8>, Callee>,
    name: &[u8],
    callee: Callee,
) -> Result<(), NoMemory>
    ensures { OnOk result ((text : List ℕ) → get_by (λ k. bytes_eq text k.items) functions.new ≡ or_else (get_by (λ k. bytes_eq text k.items) functions.old) (if bytes_eq name.now text then Some callee else None)) }
{
    if functions.contains_key(name) {
        return Ok(());
    }
    functions.insert(Vec::from_slice(alloc, name)?, callee)?;
    Ok(())
}

/// The functions of a unit by their names, of each name the first one.
pub fn functions_of(alloc: Global, graphs: &[Graph]) -> Result<IndexMap<Vec<u8>, Callee>, NoMemory>
    requires { All (λ g. AllPairs Precedes (out-Graph g).edges) graphs.now }
    ensures { IfOk result (λ m. (text : List ℕ) → get_by (λ k. bytes_eq text k.items) m ≡ callee_named graphs.now text) }
{
    let mut functions = IndexMap::new(alloc);
    for graph in graphs {
        put(
            alloc,
            &mut functions,
            graph.name.as_slice(),
            callee_of(graph),
        )?;
    }
    Ok(functions)
}

/// The function of a name.
pub fn function_in(functions: &IndexMap<Vec<u8>, Callee>, name: &[u8]) -> Option<Callee>
    ensures { result ≡ get_by (λ k. bytes_eq name.now k.items) functions.now }
{
    match functions.get(name) {
        Some(callee) => Some(*callee),
        None => None,
    }
}
