//! Sizes of constants, operations and clauses.
ghost use Rattle.std.specs.Prelude.{◌≡◌, ℕ, ◌+◌, min, nat_lt, length, if◌then◌else◌};
ghost use Rattle.if1_graph.specs.Units.{greatest};
ghost use Rattle.lowering.specs.Loops.{span};
ghost use Rattle.lowered_sizes.specs.Forms.{constant_sized, filled, applied_sized, fold_sized};
ghost use Rattle.tree_sizes.specs.Capped.{Keeps, KeepsSizes};

use crate::sums::{joined, node, only, part};
use loop_folds::{Folding, Masking};
use lowered_sizes::Sizes;
use sisal_tree::Constant;
use typed_tree::Case;
use value_ops::Operation;

/// A constant with so many types.
pub fn constant(constant: &Constant, types: u128) -> Sizes
    ensures { (k : ℕ) → Keeps types k → KeepsSizes result (constant_sized constant.now k) }
{
    match constant {
        Constant::Quoted(text) => node(text.len() as u128 + 1, types),
        _ => only(types),
    }
}

/// The greatest of some numbers, 0 of none.
fn greatest(numbers: &[u32]) -> u32
    ensures { result ≡ greatest numbers.now }
{
    let mut best = 0;
    for number in numbers {
        if best < *number {
            best = *number;
        }
    }
    best
}

/// How many ports of its node an operation fills, or leaves empty before others, of so many operands.
fn filled(op: &Operation, operands: u128) -> u128
    ensures { (v : ℕ) → Keeps operands v → Keeps result (filled op.now v) }
{
    match op {
        Operation::EmptyArray | Operation::Stream => operands.saturating_add(1),
        Operation::Union(tag) => u128::from(*tag).saturating_add(operands),
        Operation::Change(places) => u128::from(greatest(places.as_slice())) + 2,
        _ => operands,
    }
}

/// Two arms, each a literal.
fn two_arms(values: u128) -> Sizes
    ensures { (k : ℕ) → Keeps values k → KeepsSizes result (applied_sized (Operation.IsTag 0) 0 k) }
{
    let arm = part(only(1));
    joined(joined(arm, joined(arm, only(0))), node(values, values))
}

/// An operation on so many operands.
pub fn applied(op: &Operation, operands: u128, values: u128) -> Sizes
    ensures { (v k : ℕ) → Keeps operands v → Keeps values k → KeepsSizes result (applied_sized op.now v k) }
{
    match op {
        Operation::IsTag(_) => two_arms(values),
        _ => node(filled(op, operands), values),
    }
}

/// How many names are in force in an arm of a `tagcase`.
pub fn within(case: &Case, arm: usize, names: u128) -> u128
    ensures { (n : ℕ) → Keeps names n → Keeps result (if nat_lt arm case.now.named then n + 1 else n) }
{
    if arm < case.named as usize {
        names.saturating_add(1)
    } else {
        names
    }
}

/// How many multiples a clause takes.
pub fn span(masking: Masking) -> u128
    ensures { result ≡ span masking }
{
    match masking {
        Masking::All => 1,
        Masking::When | Masking::Unless => 2,
    }
}

/// A clause on so many multiples, with an ALimL for its lower bound or without.
pub fn fold(is_limit: bool, folding: Folding, multiples: u128) -> Sizes
    ensures { (k : ℕ) → Keeps multiples k → KeepsSizes result (fold_sized is_limit folding k) }
{
    match folding {
        Folding::Array => {
            let gather = node(multiples.saturating_add(1), 1);
            if is_limit {
                joined(node(1, 1), gather)
            } else {
                gather
            }
        }
        Folding::Last => node(multiples, 1),
        _ => node(multiples.saturating_add(1), 1),
    }
}
