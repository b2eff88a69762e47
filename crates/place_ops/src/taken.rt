//! Nodes that change their first operand in place and take no memory.
ghost use Rattle.std.specs.Prelude.{◌≡◌, ◌∷◌, []};
ghost use Rattle.place_ops.specs.Taken.{NeedsNoRoom, values_taken};

use crate::arrays::{adjust, set_low, update};
use crate::records::change;
use crate::removing::{remove_high, remove_low, rest};
use flow_value::Val;
use if1_graph::Simple;

/// Makes of `owned`, the first operand of an AReplace, RReplace, ARemH, ARemL, ASetL, AAdjust or
/// RestValues, the output of the node; `ins` has the further operands by their ports from 2 on, and
/// those that the output stores are moved out of it. It asks for no memory.
#[tactic(auto, using(crate::proofs::Passing::update_taken, crate::proofs::Passing::remove_high_taken, crate::proofs::Passing::remove_low_taken, crate::proofs::Passing::set_low_taken, crate::proofs::Passing::adjust_taken, crate::proofs::Passing::rest_taken, crate::proofs::Passing::change_taken))]
pub fn fire_taken(op: Simple, owned: &mut Val, ins: &mut [Option<Val>])
    requires { NeedsNoRoom op }
    ensures { values_taken op owned.old ins.old ≡ owned.new ∷ [] }
{
    match op {
        Simple::AReplace => update(owned, ins),
        Simple::RReplace => change(owned, ins),
        Simple::ARemH => remove_high(owned, ins),
        Simple::ARemL => remove_low(owned, ins),
        Simple::ASetL => set_low(owned, ins),
        Simple::AAdjust => adjust(owned, ins),
        Simple::RestValues => rest(owned, ins),
        _ => unreachable!(),
    }
}
