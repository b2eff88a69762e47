//! How much is seen.
ghost use Rattle.std.specs.Prelude.{◌≡◌, min};
ghost use Rattle.flow_value.specs.Leaves.{leaf_count_of_all};
ghost use Rattle.run_store.specs.Storage.{leaves_of};
ghost use Rattle.run_cells.specs.Sights.{seen_value};

use crate::seen::Seen;
use flow_value::{Val, leaves};

/// The number of leaves, or the greatest number of 64 bits past that.
#[tactic(auto, using(crate::proofs::Rising::leaves_of_rising, crate::proofs::Rising::leaves_of_union))]
pub fn leaves_seen(seen: Seen<'_>) -> u64
    ensures { result ≡ min (leaves_of (seen_value seen.entry)) 18446744073709551615 }
{
    match seen {
        Seen::Error(cause) => leaves(&Val::Err(cause)),
        Seen::Int(n) => leaves(&Val::Int(n)),
        Seen::Bool(b) => leaves(&Val::Bool(b)),
        Seen::Char(c) => leaves(&Val::Char(c)),
        Seen::Null => leaves(&Val::Null),
        Seen::UnionInt(_, _) => 1,
        Seen::Value(v) => leaves(v),
        Seen::Elements(items) => leaves_of_all(items),
        Seen::Rising(count, _) => u64::from(count),
        Seen::Spoiled(_) => 1,
        Seen::Name(_) => 0,
        Seen::Unfilled => 0,
    }
}

fn leaves_of_all(vs: &[Val]) -> u64
    ensures { result ≡ min (leaf_count_of_all vs.now) 18446744073709551615 }
{
    let mut sum: u64 = 0;
    for v in vs {
        sum = sum.saturating_add(leaves(v));
    }
    sum
}
