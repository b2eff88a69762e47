//! From each list to an end of it that is further on, so that a member is found in few steps.
ghost use Rattle.std.specs.Prelude.{◌≡◌, ◌<◌, ℕ, Some, true, IfOk, slice_get};
ghost use Rattle.if1_types.specs.Forms.{list_form_of, list_form_at};
ghost use Rattle.if1_types.specs.Shapes.{trees_in, HasKeys, IsOnce};
ghost use Rattle.if1_types.specs.Skips.{behind, members_at, AreCountedBy, IsFurther, AreFurther};

use crate::kind::{Kind, kind_by};
use crate::shapes::Shapes;
use flow_value::{NoMemory, Numbers, Seq};

/// The list behind the first member; 0 where there is none.
fn rest_in(kind: Option<Kind>, rest: u32) -> u32
    ensures { (first : ℕ) → result ≡ behind (list_form_of kind first rest) }
{
    match kind {
        Some(Kind::Member) => rest,
        _ => 0,
    }
}

fn rest_at(shapes: &Shapes, list: u32) -> u32
    ensures { result ≡ behind (list_form_at shapes.now list) }
{
    match shapes.key(list as usize) {
        Some(key) => rest_in(kind_by(key.0), key.2),
        None => 0,
    }
}

/// The end that stands beside a list.
pub fn skip_at(skips: &[u32], list: u32) -> Option<u32>
    ensures { result ≡ slice_get skips.now list }
{
    match skips.get(list as usize) {
        Some(skip) => Some(*skip),
        None => None,
    }
}

/// The end to stand beside a list. The ends of lists of 1, 3, 7, .. members are so joined that the
/// steps to a member are as many as its place has binary digits, twice at most.
fn skip_of(shapes: &Shapes, skips: &[u32], list: u32) -> u32
    requires told { AreCountedBy shapes.now }
    requires further { AreFurther shapes.now skips.now }
    ensures { IsFurther shapes.now list result }
{
    let rest = rest_at(shapes, list);
    match skip_at(skips, rest) {
        Some(once) => skip_by(shapes, skips, list, rest, once),
        None => rest,
    }
}

fn skip_by(shapes: &Shapes, skips: &[u32], list: u32, rest: u32, once: u32) -> u32
    requires told { AreCountedBy shapes.now }
    requires further { AreFurther shapes.now skips.now }
    requires behind { rest ≡ behind (list_form_at shapes.now list) }
    requires once { slice_get skips.now rest ≡ Some once }
    ensures { IsFurther shapes.now list result }
{
    match skip_at(skips, once) {
        Some(twice) if is_even(shapes, rest, once, twice) => twice,
        _ => rest,
    }
}

/// Whether one list is as much longer than the next as this one than the last.
fn is_even(shapes: &Shapes, rest: u32, once: u32, twice: u32) -> bool
    ensures rest { result ≡ true → 0 < members_at shapes.now rest }
    ensures once { result ≡ true → 0 < members_at shapes.now once }
{
    let all = shapes.members(rest);
    let most = shapes.members(once);
    if all == 0 || most == 0 {
        return false;
    }
    u64::from(all) + u64::from(shapes.members(twice)) == 2 * u64::from(most)
}

/// Beside the number of each list that of an end of it.
pub fn skips_of(shapes: &Shapes) -> Result<Numbers, NoMemory>
    ensures further { IfOk result (AreFurther shapes.now) }
    ensures once { IfOk result (λ ss. IsOnce (trees_in shapes.now)) }
    ensures keys { IfOk result (λ ss. HasKeys shapes.now) }
{
    let bound = shapes.bound();
    let mut skips = Seq::new(shapes.allocator());
    for list in 0..bound {
        let skip = skip_of(shapes, skips.as_slice(), list);
        skips.add(skip)?;
    }
    Ok(skips)
}
