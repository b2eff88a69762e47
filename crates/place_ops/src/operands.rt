//! The further operands of a node, in order, moved out of their ports.
ghost use Rattle.std.specs.Prelude.{◌≡◌, ◌∷◌, [], drop, MatchBool, MatchOption};
ghost use Rattle.flow_value.specs.declared.value.Val.{Val};
ghost use Rattle.value_ops.specs.Arity.{explicit, of_none, of_one, of_two};
ghost use Rattle.value_ops.specs.Given.{values_in};

use flow_value::Val;

/// The next operand from a port on, and the port behind it.
fn next(ins: &mut [Option<Val>], from: usize) -> Option<(Val, usize)>
    ensures { MatchOption
        result
        (values_in (drop from ins.old) ≡ [])
        (λ p. values_in (drop from ins.old) ≡ p.0 ∷ values_in (drop p.1 ins.new)) }
{
    for port in from..ins.len() {
        if let Some(v) = ins[port].take() {
            return Some((v, port + 1));
        }
    }
    None
}

/// Whether there is no operand.
pub fn none(ins: &mut [Option<Val>]) -> bool
    ensures { MatchBool
        result
        (values_in ins.old ≡ [])
        ((v : Val) → of_none v (values_in ins.old) ≡ explicit) }
{
    next(ins, 0).is_none()
}

/// The operand, where there is exactly one.
pub fn one(ins: &mut [Option<Val>]) -> Option<Val>
    ensures { MatchOption
        result
        ((f : Val → Val) → of_one f (values_in ins.old) ≡ explicit)
        (λ a. values_in ins.old ≡ a ∷ []) }
{
    let (first, port) = next(ins, 0)?;
    match next(ins, port) {
        Some(_) => None,
        None => Some(first),
    }
}

/// The operands, where there are exactly two.
pub fn two(ins: &mut [Option<Val>]) -> Option<(Val, Val)>
    ensures { MatchOption
        result
        ((f : Val → Val → Val) → of_two f (values_in ins.old) ≡ explicit)
        (λ p. values_in ins.old ≡ p.0 ∷ p.1 ∷ []) }
{
    let (first, port) = next(ins, 0)?;
    let (second, behind) = next(ins, port)?;
    match next(ins, behind) {
        Some(_) => None,
        None => Some((first, second)),
    }
}
