//! A reduction of a whole list.
ghost use Rattle.std.specs.Prelude.{◌≡◌, ◌^◌, ◌<◌, length, IfOk};

use crate::reduction::Reduction;
use flow_value::{NoMemory, Val, copy};
use std::alloc::Global;

/// The reduction of copies of the elements of a list.
pub fn reduce<R: Reduction + Drop>(alloc: Global, vs: &[Val]) -> Result<R, NoMemory>
    requires { length vs.now < 2 ^ 64 }
    ensures stands { IfOk result (λ r. R.stands r vs.now) }
    ensures counts { IfOk result (λ r. R.count r ≡ length vs.now) }
{
    let mut whole = R::unit(alloc);
    for v in vs {
        let one = copy(alloc, v)?;
        if whole.put(one).is_err() {
            return Err(NoMemory);
        }
    }
    Ok(whole)
}
