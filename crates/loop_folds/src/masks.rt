//! What a mask says.
ghost use Rattle.std.specs.Prelude.{◌≡◌};
ghost use Rattle.loop_folds.specs.Masks.{keep_of, mask_says};

use crate::masking::{Keep, Masking};
use flow_value::{Cause, Val};

/// What a mask says of one value: `when` keeps it where the mask is true, and `unless` where it is
/// false. A mask that is an error has its cause, and one of another kind `explicit`.
pub fn keep(masking: Masking, mask: &Val) -> Keep
    ensures { result ≡ keep_of masking mask.now }
{
    match masking {
        Masking::All => Keep::Kept,
        Masking::When => mask_says(Keep::Kept, Keep::Dropped, mask),
        Masking::Unless => mask_says(Keep::Dropped, Keep::Kept, mask),
    }
}

/// What a mask says, where it is true and where it is false.
fn mask_says(if_true: Keep, if_false: Keep, mask: &Val) -> Keep
    ensures { result ≡ mask_says if_true if_false mask.now }
{
    match mask {
        Val::Bool(b) => { if *b { if_true } else { if_false } }
        Val::Err(cause) => Keep::Failed(*cause),
        _ => Keep::Failed(Cause::Explicit),
    }
}
