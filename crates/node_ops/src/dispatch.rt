//! The outputs of a node.
ghost use Rattle.std.specs.Prelude.{◌≡◌, ◌<◌, ◌∷◌, [], map, length, IfOk};
ghost use Rattle.flow_value.specs.Lent.{operand_value};
ghost use Rattle.value_ops.specs.Given.{values_in};
ghost use Rattle.value_ops.specs.Operations.{op_value};
ghost use Rattle.node_ops.specs.Operands.{node_values, HasOneOutput};
ghost use Rattle.node_ops.specs.Rows.{single_value, row_values};

use crate::folds::{gather, last, reduce};
use crate::generators::{range, scatter};
use crate::looks::looked;
use crate::operands::applied;
use crate::records::{change, fields, same, stream_from, tag};
use crate::row::{Row, Single, resolve};
use flow_value::{NoMemory, Operand, Outputs, Shape, Val};
use if1_graph::Simple;
use std::alloc::Global;
use value_ops::Operation;

/// The outputs of a simple node, by port, on its operands by port, where a call has none. `shape`
/// is what the types on the node's edges tell. In operands and outputs a multiple stands as the
/// stream of its elements or as its error, and the name of a reduction as the array of its
/// characters. An operand that is owned and stored in an output is moved into it; what is lent is
/// copied where it is stored. The operands are used up.
pub fn fire(
    alloc: Global,
    op: Simple,
    shape: Shape,
    ins: &mut [Operand<'_>],
) -> Result<Outputs, NoMemory>
    requires { length ins.old < 4294967296 }
    ensures { IfOk result (λ outs. outs ≡ node_values op shape (map operand_value ins.old)) }
{
    match resolve(op, shape) {
        Row::One(single) => {
            let value = one_value(alloc, &single, ins)?;
            only(alloc, value)
        }
        Row::Scattered => scatter(alloc, ins),
        Row::Fields(count) => fields(alloc, count, ins),
        Row::Nothing => Ok(Outputs::new(alloc)),
    }
}

/// The output of a simple node that has one, as `fire` gives it, without a list.
pub fn fire_one(
    alloc: Global,
    op: Simple,
    shape: Shape,
    ins: &mut [Operand<'_>],
) -> Result<Val, NoMemory>
    requires one { HasOneOutput op }
    requires ports { length ins.old < 4294967296 }
    ensures { IfOk result (λ v. node_values op shape (map operand_value ins.old) ≡ v ∷ []) }
{
    match resolve(op, shape) {
        Row::One(single) => one_value(alloc, &single, ins),
        Row::Scattered => unreachable!(),
        Row::Fields(_) => unreachable!(),
        Row::Nothing => unreachable!(),
    }
}

fn only(alloc: Global, value: Val) -> Result<Outputs, NoMemory>
    ensures { IfOk result (λ outs. outs ≡ value ∷ []) }
{
    let mut outs = Outputs::with_room(alloc, 1)?;
    outs.add(value)?;
    Ok(outs)
}

fn one_value(alloc: Global, row: &Single, ins: &mut [Operand<'_>]) -> Result<Val, NoMemory>
    requires { length ins.old < 4294967296 }
    ensures { IfOk result (λ v. v ≡ single_value row.now (map operand_value ins.old)) }
{
    match row {
        Single::Plain(operation) => operate(alloc, operation, ins),
        Single::Same => same(alloc, ins),
        Single::Streamed => stream_from(alloc, ins),
        Single::Tagged => tag(alloc, ins),
        Single::Changed => change(alloc, ins),
        Single::Range => range(alloc, ins),
        Single::Gathered(shape) => gather(alloc, *shape, ins),
        Single::Last => last(alloc, ins),
        Single::Reduced(shape) => reduce(alloc, *shape, ins),
    }
}

fn operate(alloc: Global, operation: &Operation, ins: &mut [Operand<'_>]) -> Result<Val, NoMemory>
    ensures { IfOk result (λ v. v ≡ op_value operation.now (values_in (map operand_value ins.old))) }
{
    match looked(alloc, operation, ins)? {
        Some(value) => Ok(value),
        None => applied(alloc, operation, ins),
    }
}
