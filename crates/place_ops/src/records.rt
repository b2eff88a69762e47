//! The change of a record that is owned.
ghost use Rattle.std.specs.Prelude.{◌≡◌, ◌∷◌, [], map, nat_lt, slice_set};
ghost use Rattle.std.specs.List.{list_all};
ghost use Rattle.value_ops.specs.Aggregates.{changed, replaced};
ghost use Rattle.value_ops.specs.Given.{values_in};
ghost use Rattle.value_ops.specs.Operations.{op_value};
ghost use Rattle.value_ops.specs.declared.operation.Operation.TheVariants as operation;
ghost use Rattle.graph_meaning.specs.Carried.{filled_from};
ghost use Rattle.node_ops.specs.Operands.{plain};

use flow_value::{Cause, Items, Val};
use std::mem;

/// The record with the fields changed of the ports that have an operand: node 145.
pub fn change(owned: &mut Val, ins: &mut [Option<Val>])
    ensures { owned.new ≡ op_value (operation.Change (filled_from 0 (map plain ins.old))) (owned.old ∷ values_in ins.old) }
{
    let value = mem::replace(owned, Val::Null);
    *owned = change_in(value, ins);
}

fn change_in(owned: Val, ins: &mut [Option<Val>]) -> Val
    ensures { result ≡ op_value (operation.Change (filled_from 0 (map plain ins.old))) (owned ∷ values_in ins.old) }
{
    match owned {
        Val::Rec(fields) => change_all(fields, ins),
        Val::Err(cause) => Val::Err(cause),
        _ => Val::Err(Cause::Explicit),
    }
}

#[tactic(auto, using(crate::proofs::Taking::change_ports))]
fn change_all(fields: Items, ins: &mut [Option<Val>]) -> Val
    ensures { result ≡ changed (filled_from 0 (map plain ins.old)) (values_in ins.old) fields }
{
    if !are_fields(ins, fields.len()) {
        return Val::Err(Cause::Explicit);
    }
    Val::Rec(replace_all(fields, ins))
}

/// Whether each port that has an operand is that of one of so many fields.
fn are_fields(ins: &[Option<Val>], count: usize) -> bool
    ensures { result ≡ list_all (λ p. nat_lt p count) (filled_from 0 (map plain ins.now)) }
{
    for port in 0..ins.len() {
        match &ins[port] {
            Some(_) => {
                if port >= count {
                    return false;
                }
            }
            None => {}
        }
    }
    true
}

fn replace_all(fields: Items, ins: &mut [Option<Val>]) -> Items
    ensures { result ≡ replaced (filled_from 0 (map plain ins.old)) (values_in ins.old) fields }
{
    let mut fields = fields;
    for port in 0..ins.len() {
        if let Some(v) = ins[port].take() {
            set_field(&mut fields, port, v);
        }
    }
    fields
}

fn set_field(fields: &mut Items, place: usize, v: Val)
    ensures { fields.new ≡ slice_set fields.old place v }
{
    if place < fields.len() {
        fields.set(place, v);
    }
}
