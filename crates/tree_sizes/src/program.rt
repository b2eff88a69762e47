//! The function in which the graphs of a program show to be too large or too many.
ghost use Rattle.std.specs.Prelude.{◌≡◌, ℕ, ◌+◌, ◌||◌, nat_lt, List, length, map};
ghost use Rattle.lowered_sizes.specs.Forms.{all_sized};
ghost use Rattle.lowered_sizes.specs.Programs.{function_sized, sizes_over, stub_sized};
ghost use Rattle.lowered_units.specs.Fitting.{IsFitting};
ghost use Rattle.lowering.specs.TooMany.{header_ports, most_graphs, most_nodes, most_ports, program_over};
ghost use Rattle.tree_sizes.specs.Capped.{Keeps, KeepsSizes};

use crate::sums::{deeper, is_greater, part};
use crate::walk::exprs;
use lowered_sizes::{Sizes, sizes_are_exact};
use type_table::Types;
use typed_tree::{Function, Program};

/// An error of a type for each of so many results.
fn stubs(results: usize) -> Sizes
    ensures { (ts : List ℕ) (n : ℕ) → results ≡ length ts → KeepsSizes result (all_sized (map stub_sized ts) n) }
{
    let all = results as u128;
    Sizes {
        nodes: all,
        graphs: 0,
        largest: 0,
        ports: all,
        values: all,
    }
}

/// How much a function becomes, its graph among it.
fn sizes_of(types: &Types, function: &Function) -> Sizes
    ensures { KeepsSizes result (function_sized types.now function.now) }
{
    match &function.body {
        Some(body) => {
            let names = function.params.len() as u128;
            part(exprs(types, names, body.as_slice()))
        }
        None => part(stubs(function.results.len())),
    }
}

/// The parameters and results of a function.
fn header(function: &Function) -> u128
    ensures { Keeps result (length function.now.params + length function.now.results) }
{
    let params = function.params.len() as u128;
    let results = function.results.len() as u128;
    deeper(params, results)
}

/// The parameters and results of functions.
fn headers(functions: &[Function]) -> u128
    ensures { Keeps result (header_ports functions.now) }
{
    let mut sum = 0;
    let mut at = functions.len();
    while at > 0 {
        at -= 1;
        sum = deeper(header(&functions[at]), sum);
    }
    sum
}

/// Whether a graph is too large, or graphs or ports are too many.
fn is_over(largest: u128, graphs: u128, ports: u128) -> bool
    ensures { (l g p : ℕ) → Keeps largest l → Keeps graphs g → Keeps ports p → result ≡ (nat_lt most_nodes l || (nat_lt most_graphs g || nat_lt most_ports p)) }
{
    let is_large = is_greater(largest, 65_535);
    let are_graphs = is_greater(graphs, 4_194_304);
    let are_ports = is_greater(ports, 2_147_483_647);
    is_large || (are_graphs || are_ports)
}

/// The line of the first function with which, and those before it, graphs or ports are too many.
fn over(types: &Types, functions: &[Function], ports: u128) -> Option<u32>
    ensures { (p : ℕ) → Keeps ports p → result ≡ sizes_over types.now functions.now 0 p }
{
    let mut graphs = 0;
    let mut all = ports;
    for function in functions {
        let sizes = sizes_of(types, function);
        graphs = deeper(graphs, sizes.graphs);
        all = deeper(all, sizes.ports);
        if is_over(sizes.largest, graphs, all) {
            return Some(function.line);
        }
    }
    None
}

/// The line of the function in which the graphs or ports of a program show to be too large or too
/// many; none where they are within the limits.
pub fn graphs_over(program: &Program) -> Option<u32>
    requires fits { IsFitting program.now }
    ensures { result ≡ program_over program.now }
{
    sizes_are_exact();
    let functions = program.functions.as_slice();
    over(&program.types, functions, headers(functions))
}
