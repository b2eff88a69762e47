//! The arguments of functions.
ghost use Rattle.std.specs.Prelude.{◌≡◌, IfOk, IsSome, map, option_map};
ghost use Rattle.if1_graph.specs.declared.graph.Graph.TheViews.{out-Graph};
ghost use Rattle.if1_graph.specs.Ready.{IsReady};
ghost use Rattle.if1_types.specs.Numbering.{IsNumbering};
ghost use Rattle.if1_valid.specs.Params.{function_in, function_of};
ghost use Rattle.if1_arguments.specs.Arguments.{AreArgumentsOf};
ghost use Rattle.if1_arguments.specs.Numbered.{numbered};

use flow_value::{NoMemory, Seq};
use if1_graph::{Graph, Unit1};
use if1_types::{Parameter, Sorts, parameters_of};
use std::alloc::Global;

/// The label of the type of the function of a number.
fn label_of(graphs: &[Graph], number: u32) -> Option<u32>
    ensures { result ≡ option_map (λ g. (out-Graph g).fun) (function_in graphs.now number) }
{
    for graph in graphs {
        if graph.number == number {
            return Some(graph.fun);
        }
    }
    None
}

fn numbers_of(alloc: Global, parameters: &[Parameter]) -> Result<Seq<usize>, NoMemory>
    ensures { IfOk result (λ ns. ns ≡ map (λ p. p.ty) parameters.now) }
{
    let mut numbers = Seq::with_room(alloc, parameters.len())?;
    for parameter in parameters {
        numbers.add(parameter.ty as usize)?;
    }
    Ok(numbers)
}

/// The numbers of the types of the arguments of the function of a number, in order. No type is written
/// out.
pub fn arguments_of(
    alloc: Global,
    unit: &Unit1,
    sorts: &Sorts,
    function: u32,
) -> Result<Seq<usize>, NoMemory>
    requires ready { IsReady unit.now }
    requires numbers { IsNumbering unit.now.types sorts.now }
    requires there { IsSome (function_of unit.now function) }
    ensures { IfOk result (AreArgumentsOf unit.now function (numbered sorts.now.shapes)) }
{
    let Some(label) = label_of(unit.graphs.as_slice(), function) else {
        unreachable!();
    };
    match parameters_of(alloc, unit.types.as_slice(), sorts, label)? {
        Some(parameters) => numbers_of(alloc, parameters.as_slice()),
        None => unreachable!(),
    }
}
