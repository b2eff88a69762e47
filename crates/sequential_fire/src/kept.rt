//! The leaves of the kept elements of a multiple.
ghost use Rattle.std.specs.Prelude.{◌≡◌, sum, map, IfOk};
ghost use Rattle.graph_meaning.specs.Carried.{Many, Unfilled};
ghost use Rattle.graph_meaning.specs.NodeValues.{masked};
ghost use Rattle.graph_meaning.specs.Storage.{capped, leaves_kept, leaves_where};
ghost use Rattle.loop_folds.specs.Masks.{keep_of};
ghost use Rattle.run_cells.specs.Sights.{seen_value};

use crate::given::rising;
use flow_value::{NoMemory, Val, leaves};
use loop_folds::{Keep, Masking, keep};
use run_cells::{Seen, leaves_seen};
use std::alloc::Global;

/// The leaves of a multiple without a mask.
#[tactic(auto, using(crate::proofs::Counts::all_kept))]
pub fn kept_all(multiple: Seen<'_>) -> u64
    ensures { result ≡ capped (leaves_kept (seen_value multiple.entry) Unfilled) }
{
    leaves_seen(multiple)
}

/// The leaves of the elements of a multiple that a mask keeps.
#[tactic(auto, using(crate::proofs::Counts::all_kept))]
pub fn kept_by(alloc: Global, multiple: Seen<'_>, mask: Seen<'_>) -> Result<u64, NoMemory>
    ensures { IfOk result (λ n. n ≡ capped (leaves_kept (seen_value multiple.entry) (seen_value mask.entry))) }
{
    match mask {
        Seen::Elements(masks) => kept_where(alloc, multiple, masks),
        Seen::Rising(count, lo) => {
            let masks = rising(alloc, lo, count)?;
            kept_where(alloc, multiple, masks.as_slice())
        }
        _ => Ok(leaves_seen(multiple)),
    }
}

fn kept_where(alloc: Global, multiple: Seen<'_>, masks: &[Val]) -> Result<u64, NoMemory>
    ensures { IfOk result (λ n. n ≡ capped (leaves_kept (seen_value multiple.entry) (Many masks.now))) }
{
    match multiple {
        Seen::Elements(items) => Ok(leaves_masked(items, masks)),
        Seen::Rising(count, lo) => {
            let items = rising(alloc, lo, count)?;
            Ok(leaves_masked(items.as_slice(), masks))
        }
        _ => Ok(leaves_seen(multiple)),
    }
}

fn leaves_masked(items: &[Val], masks: &[Val]) -> u64
    ensures { result ≡ capped (sum (map leaves_where (masked items.now masks.now))) }
{
    let mut sum: u64 = 0;
    for place in 0..items.len() {
        if place >= masks.len() {
            return sum;
        }
        sum = sum.saturating_add(leaves_of_one(&items[place], &masks[place]));
    }
    sum
}

fn leaves_of_one(v: &Val, mask: &Val) -> u64
    ensures { result ≡ capped (leaves_where (v.now, keep_of Masking.When mask.now)) }
{
    match keep(Masking::When, mask) {
        Keep::Kept => leaves(v),
        _ => 0,
    }
}
