//! Elements that are kept up to one past the limit, where the result is an error whatever follows.
ghost use Rattle.std.specs.Prelude.{◌≡◌, ◌∷◌, [], ◌++◌, is_ok, if◌then◌else◌, IfErr};
ghost use Rattle.loop_folds.specs.Kept.{kept};

use flow_value::{Items, MOST_ELEMENTS, Val};

/// How many elements are kept at most.
pub const MOST_KEPT: usize = MOST_ELEMENTS + 1;

/// Adds one element, as far as elements are kept. On want of memory it comes back, and the list is
/// as it was.
pub fn keep(items: &mut Items, v: Val) -> Result<(), Val>
    ensures list { items.new ≡ (if is_ok result then kept (items.old ++ v ∷ []) else items.old) }
    ensures handed_back { IfErr result (λ back. back ≡ v) }
{
    items.push(v)?;
    items.truncate(MOST_KEPT);
    Ok(())
}

/// Adds the elements of `more`, as far as elements are kept. On want of memory they come back, and
/// the list is as it was.
pub fn keep_all(items: &mut Items, more: Items) -> Result<(), Items>
    ensures list { items.new ≡ (if is_ok result then kept (items.old ++ more) else items.old) }
    ensures handed_back { IfErr result (λ back. back ≡ more) }
{
    items.append(more)?;
    items.truncate(MOST_KEPT);
    Ok(())
}
