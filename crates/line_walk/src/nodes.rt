//! What is carried to the ports of nodes.
ghost use Rattle.std.specs.Prelude.{◌≡◌, ◌++◌, ◌∷◌, [], map, OnOk, IfOk};
ghost use Rattle.lowering.specs.declared.feed.Carried.TheVariants.{One};
ghost use Rattle.lowering.specs.Operations.{boolean, character, integer};
ghost use Rattle.lowering.specs.Choices.{type_of};
ghost use Rattle.line_types.specs.Traces.{carried_at, ones, reversed, constant_traced, operands};
ghost use Rattle.line_labels.specs.Needs.{put, added};

use crate::ports::{add_changed, rest};
use flow_value::{NoMemory, Seq, item_at};
use line_labels::Needs;
use lowering::Carried;
use sisal_tree::Constant;
use std::alloc::Global;
use type_table::{BOOLEAN, CHARACTER, INTEGER, NULL};
use value_ops::Operation;

/// What the name of a level carries.
pub fn carried_at(names: &[Carried], level: usize) -> Carried
    ensures { result ≡ carried_at names.now level }
{
    match item_at(names, level) {
        Some(carried) => *carried,
        None => Carried::One(NULL),
    }
}

/// The type of a value or of the values of a multiple.
pub fn type_of(carried: Carried) -> usize
    ensures { result ≡ type_of carried }
{
    match carried {
        Carried::One(ty) | Carried::Many(ty) => ty,
        Carried::Callee(_) => 0,
    }
}

/// Adds values of these types.
pub fn add_ones(values: &mut Seq<Carried>, tys: &[usize]) -> Result<(), NoMemory>
    ensures { OnOk result (values.new ≡ values.old ++ ones tys.now) }
{
    for ty in tys {
        values.add(Carried::One(*ty))?;
    }
    Ok(())
}

/// What the lines of a constant carry.
pub fn add_constant(needs: &mut Needs, constant: &Constant, tys: &[usize]) -> Result<(), NoMemory>
    ensures { OnOk result (needs.new ≡ added needs.old (constant_traced constant.now tys.now).lines) }
{
    let _ = tys;
    match constant {
        Constant::Quoted(codes) => {
            needs.add(Carried::One(INTEGER))?;
            add_letters(needs, codes.as_slice())
        }
        _ => Ok(()),
    }
}

/// What the lines of characters carry.
fn add_letters(needs: &mut Needs, codes: &[u8]) -> Result<(), NoMemory>
    ensures { OnOk result (needs.new ≡ added needs.old (map (λ c. One character) codes.now)) }
{
    for _ in codes {
        needs.add(Carried::One(CHARACTER))?;
    }
    Ok(())
}

/// What lines carry, the last one first.
#[tactic(auto, using(crate::proofs::Added::added_both))]
fn add_reversed(needs: &mut Needs, carried: &[Carried]) -> Result<(), NoMemory>
    ensures { OnOk result (needs.new ≡ added needs.old (reversed carried.now)) }
{
    let mut at = carried.len();
    while at > 0 {
        at -= 1;
        needs.add(carried[at])?;
    }
    Ok(())
}

/// What the lines into the node of an operation carry, by what its operands carry.
pub fn add_operands(
    alloc: Global,
    needs: &mut Needs,
    operation: &Operation,
    carried: &[Carried],
) -> Result<(), NoMemory>
    ensures { OnOk result (needs.new ≡ added needs.old (operands operation.now carried.now)) }
{
    match operation {
        Operation::Swapped(_) => add_reversed(needs, carried),
        Operation::EmptyArray | Operation::Stream => {
            needs.add(Carried::One(INTEGER))?;
            needs.add_all(carried)
        }
        Operation::Change(places) => {
            needs.add(carried_at(carried, 0))?;
            add_changed(alloc, needs, places.as_slice(), rest(carried))
        }
        Operation::IsTag(_) => {
            needs.add(Carried::One(BOOLEAN))?;
            needs.add(Carried::One(BOOLEAN))?;
            needs.add(carried_at(carried, 0))
        }
        _ => needs.add_all(carried),
    }
}
