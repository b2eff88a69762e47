//! Numbers of types.
ghost use Rattle.std.specs.Prelude.{◌≡◌, ◌<◌, length, map, All, true, slice_get, Some, IfSome, IfOk, IsNone};
ghost use Rattle.type_table.specs.Tables.{AddsAtMost, HasFew, HasMember, IsOver};
ghost use Rattle.unit_types.specs.Faults.{IsTooDeep};

use flow_value::NoMemory;
use type_table::{Form, Member, Types};

/// The number of a form, none where it is deeper than 64. One with a part that is not in the table,
/// a record without a field and a union without a tag have none either.
pub fn number(types: &mut Types, form: Form) -> Result<Option<usize>, NoMemory>
    requires { HasFew form }
    ensures number { IfOk result (λ o. IfSome o (λ k. slice_get types.new k ≡ Some form)) }
    ensures table { AddsAtMost types.old form types.new }
    ensures too_deep { IfOk result (λ o. IsNone o → IsTooDeep types.old form) }
    ensures over { IfOk result (λ o. IfSome o (λ k. IsOver (length types.old) form)) }
    ensures refused { IfOk result (λ o. IsNone o → types.new ≡ types.old) }
{
    if !may_stand(types, &form) {
        return Ok(None);
    }
    types.number(form)
}

/// Whether the parts of a form are in the table, and a record has a field, a union a tag.
fn may_stand(types: &Types, form: &Form) -> bool
    ensures parts { result ≡ true → IsOver (length types.now) form.now }
    ensures members { result ≡ true → HasMember form.now }
    ensures all { IsOver (length types.now) form.now → HasMember form.now → result ≡ true }
{
    match form {
        Form::Array(ty) | Form::Stream(ty) => *ty < types.len(),
        Form::Record(members) | Form::Union(members) => {
            !members.is_empty() && are_below(members.as_slice(), types.len())
        }
        _ => true,
    }
}

/// Whether the types of the members have numbers below `n`.
fn are_below(members: &[Member], n: usize) -> bool
    ensures below { result ≡ true → All (λ t. t < n) (map (λ m. m.ty) members.now) }
    ensures all { All (λ t. t < n) (map (λ m. m.ty) members.now) → result ≡ true }
{
    for member in members {
        if member.ty >= n {
            return false;
        }
    }
    true
}
