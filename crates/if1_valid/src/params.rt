//! The types of the arguments of functions, by the numbers of these.
ghost use Rattle.std.specs.Prelude.{◌≡◌, IfOk, map, option_map};
ghost use Rattle.std.specs.List.Sorted.{IsStrictlyIncreasing};
ghost use Rattle.if1_graph.specs.declared.graph.Graph.TheViews.{out-Graph};
ghost use Rattle.if1_valid.specs.Params.{function_in, params_in};

use flow_value::{NoMemory, Types};
use if1_graph::{Graph, TypeEntry};
use if1_types::params_of;
use std::alloc::Global;

/// The label of the type of the function of a number.
fn fun_of(graphs: &[Graph], number: u32) -> Option<u32>
    ensures { result ≡ option_map (λ g. (out-Graph g).fun) (function_in graphs.now number) }
{
    for graph in graphs {
        if graph.number == number {
            return Some(graph.fun);
        }
    }
    None
}

/// The types of the arguments of the function of a number, if they are there.
pub fn function_params(
    alloc: Global,
    types: &[TypeEntry],
    graphs: &[Graph],
    number: u32,
) -> Result<Option<Types>, NoMemory>
    requires { IsStrictlyIncreasing (map (λ e. e.label) types.now) }
    ensures { IfOk result (λ found. found ≡ params_in types.now graphs.now number) }
{
    match fun_of(graphs, number) {
        Some(label) => params_of(alloc, types, label),
        None => Ok(None),
    }
}
