//! Lowered functions.
ghost use Rattle.std.specs.Prelude.{◌≡◌, ◌<◌, ◌+◌, ◌^◌, List, map, None, IfOk};
ghost use Rattle.lowering.specs.declared.feed.Wire.{Wire};
ghost use Rattle.lowering.specs.Graphs.{new_graph, size};
ghost use Rattle.lowering.specs.Operations.{all_lowered};
ghost use Rattle.lowering.specs.Programs.{stub, bodies, function_lowered, functions_lowered};
ghost use Rattle.lowering.specs.TooMany.{program_over};
ghost use Rattle.lowered_data.specs.States.{IsMade};
ghost use Rattle.lowered_functions.specs.Ends.{lowered_of};

use flow_value::{NoMemory, Seq};
use if1_graph::Simple;
use lower_exprs::expressions;
use lower_nodes::{append, row};
use lowered_data::{Made, Names, ports};
use lowering::{Lowered, Wire};
use std::alloc::Global;
use type_table::Types;
use typed_tree::{Function, Program};

/// An error of each of these types.
fn stubs(alloc: Global, made: &mut Made, types: &[usize]) -> Result<Seq<Wire>, NoMemory>
    ensures { (env : List Wire) → IfOk result (λ ws. IsMade (all_lowered (map stub types.now) env) made.old made.new ws) }
{
    let mut values = Seq::new(alloc);
    for place in 0..types.len() {
        let error = row(alloc, made, Simple::Error, Seq::new(alloc), &[types[place]])?;
        append(&mut values, error)?;
    }
    Ok(values)
}

/// The results of a function whose parameters are the names in force.
fn results(
    alloc: Global,
    forms: &Types,
    names: &mut Names,
    made: &mut Made,
    function: &Function,
) -> Result<Seq<Wire>, NoMemory>
    ensures { IfOk result (λ ws. IsMade (all_lowered (bodies forms.now function.now.body function.now.results) names.old.here) made.old made.new ws) }
{
    match &function.body {
        Some(body) => expressions(alloc, forms, names, made, body.as_slice()),
        None => stubs(alloc, made, function.results.as_slice()),
    }
}

/// A graph under way that ends with these values.
fn ended(made: Made, values: Seq<Wire>) -> Lowered
    ensures { result ≡ lowered_of made values }
{
    let Made {
        nodes,
        graphs,
        lines,
        ..
    } = made;
    Lowered {
        nodes,
        graphs,
        lines,
        values,
    }
}

/// The graph of a function, which has this number.
fn lowered_function(
    alloc: Global,
    forms: &Types,
    function: &Function,
    number: u32,
) -> Result<Lowered, NoMemory>
    requires { number + 1 < 2 ^ 32 }
    ensures { IfOk result (λ m. m ≡ new_graph (function_lowered forms.now function.now) number) }
{
    let mut names = Names::new(alloc);
    let inputs = ports(alloc, 0, 1, function.params.as_slice())?;
    names.define(alloc, inputs.as_slice())?;
    let mut made = Made::new(alloc, number + 1);
    let values = results(alloc, forms, &mut names, &mut made, function)?;
    Ok(ended(made, values))
}

/// The number behind those of a graph and of the graphs inside.
fn next_number(number: u32, lowered: &Lowered) -> u32
    requires { number + size lowered.now < 2 ^ 32 }
    ensures { result ≡ number + size lowered.now }
{
    number + lowered.graphs.len() as u32 + 1
}

/// The graph of each function of a program, with those inside, by number from 1. Graphs and ports are
/// not too many, and no graph is too large.
pub fn lowered_functions(alloc: Global, program: &Program) -> Result<Seq<Lowered>, NoMemory>
    requires within { program_over program.now ≡ None }
    ensures { IfOk result (λ ms. ms ≡ functions_lowered program.now) }
{
    let functions = program.functions.as_slice();
    let mut lowered = Seq::with_room(alloc, functions.len())?;
    let mut number = 1;
    for function in functions {
        let one = lowered_function(alloc, &program.types, function, number)?;
        number = next_number(number, &one);
        lowered.add(one)?;
    }
    Ok(lowered)
}
