//! What the lines of functions carry.
ghost use Rattle.std.specs.Prelude.{◌≡◌, ◌∷◌, [], OnOk, IfOk};
ghost use Rattle.line_types.specs.Traces.{function_lines, graph_lines, ones};
ghost use Rattle.line_labels.specs.Needs.{added};
ghost use Rattle.line_walk.specs.Met.{exprs_met};

use crate::nodes::add_ones;
use crate::walk::Walk;
use flow_value::{NoMemory, Seq};
use line_labels::Needs;
use lowering::Carried;
use std::alloc::Global;
use std::mem;
use type_table::Types;
use typed_tree::{Function, TypedExpr};

/// Values of these types.
fn values_of(alloc: Global, tys: &[usize]) -> Result<Seq<Carried>, NoMemory>
    ensures { IfOk result (λ values. values ≡ ones tys.now) }
{
    let mut values = Seq::new(alloc);
    add_ones(&mut values, tys)?;
    Ok(values)
}

/// Adds what the lines of a function carry, each thing once, in the order in which a walk over its body
/// meets it first. A function of another text gives an error for each result.
pub fn add_function(
    alloc: Global,
    needs: &mut Needs,
    types: &Types,
    function: &Function,
) -> Result<(), NoMemory>
    ensures { OnOk result (needs.new ≡ added needs.old (function_lines types.now function.now)) }
{
    match &function.body {
        Some(body) => add_body(alloc, needs, types, function, body.as_slice()),
        None => {
            let values = values_of(alloc, function.results.as_slice())?;
            needs.add_all(values.as_slice())
        }
    }
}

/// Adds what the lines of a function with this body carry.
fn add_body(
    alloc: Global,
    needs: &mut Needs,
    types: &Types,
    function: &Function,
    body: &[TypedExpr],
) -> Result<(), NoMemory>
    ensures { OnOk result (needs.new ≡ added needs.old (graph_lines (exprs_met types.now body.now (ones function.now.params) ∷ []))) }
{
    let names = values_of(alloc, function.params.as_slice())?;
    let mut walk = Walk {
        alloc,
        needs: mem::replace(needs, Needs::new(alloc)),
        names,
    };
    walk.graph(types, body)?;
    *needs = walk.needs;
    Ok(())
}
