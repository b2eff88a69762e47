//! The limits of an array, before its elements are copied.
ghost use Rattle.std.specs.Prelude.{◌≡◌, List, length, IfErr};
ghost use Rattle.flow_value.specs.declared.value.Val.{Val};
ghost use Rattle.flow_value.specs.Aggregates.{array_val};

use flow_value::{Cause, MOST_ELEMENTS, Val, bounds_fit};

/// Nothing, where an array of so many elements from `lo` is within the limits, and else the error
/// that it is.
pub fn array_limits(lo: i64, count: usize) -> Result<(), Val>
    ensures { IfErr result (λ e. (vs : List Val) → length vs ≡ count → e ≡ array_val lo vs) }
{
    if count > MOST_ELEMENTS {
        return Err(Val::Err(Cause::Size));
    }
    if !bounds_fit(lo, count) {
        return Err(Val::Err(Cause::Bounds));
    }
    Ok(())
}
