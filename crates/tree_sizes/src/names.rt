//! Names of loops.
ghost use Rattle.std.specs.Prelude.{◌≡◌, ℕ, ◌+◌, ◌&&◌, nat_le, nat_lt, List, if◌then◌else◌};
ghost use Rattle.lowered_sizes.specs.Counting.{only};
ghost use Rattle.type_table.specs.declared.form.Form.{Form};
ghost use Rattle.lowering.specs.Loops.{loop_name};
ghost use Rattle.lowered_sizes.specs.declared.sizes.Sizes.{Sizes};
ghost use Rattle.lowered_sizes.specs.Forms.{phrase_sized};
ghost use Rattle.tree_sizes.specs.Capped.{Keeps, KeepsSizes};
ghost use Rattle.tree_sizes.specs.Clauses.{extra_at, is_name};

use crate::sums::{deeper, is_greater, negated, only};
use lowered_sizes::Sizes;
use typed_tree::{TypedExpr, TypedKind};

/// Whether a level is one of so many behind so many.
fn is_between(level: u32, around: u128, count: u128) -> bool
    ensures { (n k : ℕ) → Keeps around n → Keeps count k → result ≡ (nat_le n level && nat_lt level (n + k)) }
{
    let is_before = is_greater(around, level);
    let is_inside = is_greater(deeper(around, count), level);
    !is_before && is_inside
}

/// Whether an expression is the name of a loop of so many names, with so many names around it.
pub fn is_loop_name(around: u128, count: u128, e: &TypedExpr) -> bool
    ensures { (forms : List Form) (n k : ℕ) → Keeps around n → Keeps count k → result ≡ is_name (loop_name n k (phrase_sized forms e.now).name) }
{
    match &e.kind {
        TypedKind::Value(level) => is_between(*level, around, count),
        _ => false,
    }
}

/// How much is collected at a place.
pub fn extra(place: Option<bool>, is_name: bool, sizes: Sizes) -> Sizes
    ensures { (s : Sizes) → KeepsSizes sizes s → KeepsSizes result (extra_at place is_name s) }
{
    match place {
        None => only(0),
        Some(is_not) => {
            if is_not {
                negated(true, sizes)
            } else {
                named(is_name, sizes)
            }
        }
    }
}

/// Nothing of a name.
fn named(is_name: bool, sizes: Sizes) -> Sizes
    ensures { (s : Sizes) → KeepsSizes sizes s → KeepsSizes result (if is_name then only 0 else s) }
{
    if is_name { only(0) } else { sizes }
}
