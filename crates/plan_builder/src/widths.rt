//! How many outputs nodes have.
ghost use Rattle.std.specs.Prelude.{◌≡◌};
ghost use Rattle.if1_graph.specs.declared.row.Gives.TheVariants as Gives;
ghost use Rattle.if1_graph.specs.Rows.{row_of};
ghost use Rattle.graph_meaning.specs.Laws.{outputs_by};
ghost use Rattle.step_code.specs.Operands.{shape_of};

use flow_value::Shape;
use if1_graph::{Gives, Simple, gives_of};

/// How many outputs a simple node other than a Call has, by its row and what the types on its edges
/// tell.
pub fn plain_width(row: Simple, shape: Shape) -> u32
    ensures { result ≡ outputs_by (row_of row).gives (shape_of shape) }
{
    match gives_of(row) {
        Gives::One(_) => 1,
        Gives::Pair(_, _) => 2,
        Gives::Results => 0,
        Gives::AllFields => fields_in(shape),
    }
}

fn fields_in(shape: Shape) -> u32
    ensures { result ≡ outputs_by Gives.AllFields (shape_of shape) }
{
    match shape {
        Shape::Fields(count) => count,
        _ => 0,
    }
}
