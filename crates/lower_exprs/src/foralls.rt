//! Loops over generators, of their generators and their body.
ghost use Rattle.std.specs.Prelude.{◌≡◌, ◌++◌, List, map, IfOk};
ghost use Rattle.lowering.specs.declared.feed.Wire.{Wire};
ghost use Rattle.lowering.specs.Feeds.{into};
ghost use Rattle.lowering.specs.Operations.{Lowers};
ghost use Rattle.lowering.specs.Loops.{single, own_inputs, generators_lowered, forall_lowered};
ghost use Rattle.lowered_data.specs.declared.made.Made.{Made};
ghost use Rattle.lowered_data.specs.States.{IsMade};
ghost use Rattle.lower_nodes.specs.Placing.{IsPlaced};
ghost use Rattle.lower_exprs.specs.Turned.{BothStand};

use flow_value::{NoMemory, Seq};
use if1_graph::Compound;
use lower_nodes::{Placed, bound_of, many_inputs, returns_part};
use lowered_data::Made;
use lowering::Wire;
use std::alloc::Global;
use type_table::Types;
use typed_tree::Product;

/// A loop over generators on bounds, which are seen from inside, by its generators and its body, which
/// stand there.
pub fn forall_node(
    alloc: Global,
    forms: &Types,
    made: &mut Made,
    product: &Product,
    bounds: &[Wire],
    first: &Placed,
    second: &Placed,
    types: &[usize],
) -> Result<Seq<Wire>, NoMemory>
    requires { BothStand made.old first.now.place second.now.place }
    ensures { (before b : Made) (body : Lowers) (ws env : List Wire) → bounds.now ≡ map into ws → IsPlaced (generators_lowered forms.now product.now.sources (map into ws)) before b first.now → IsPlaced (body (map into env ++ own_inputs 1 (map single first.now.carried))) b made.old second.now → IfOk result (λ us. IsMade (forall_lowered forms.now product.now.sources product.now.clauses body types.now ws env) before made.new us) }
{
    let sources = product.sources.as_slice();
    let clauses = product.clauses.as_slice();
    let elements = first.carried.as_slice();
    let columns = second.carried.as_slice();
    let bound = bound_of(alloc, forms, sources, bounds)?;
    let multiples = many_inputs(alloc, elements.len() + 1, columns)?;
    let spans = multiples.as_slice();
    let third = returns_part(alloc, made, &bound, clauses, spans, types)?;
    let arms = Seq::from_slice(alloc, &[0, 1, 2])?;
    made.whole(
        alloc,
        Compound::ForAll,
        &[first.place, second.place, third.place],
        arms,
        columns.len(),
        types,
    )
}
