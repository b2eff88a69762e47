//! What is copied where rows are put to collections.
ghost use Rattle.std.specs.Prelude.{◌≡◌, ◌+◌, min, if◌then◌else◌, map};
ghost use Rattle.flow_value.specs.Leaves.{leaf_count};
ghost use Rattle.graph_meaning.specs.Carried.{val_of};
ghost use Rattle.graph_meaning.specs.Storage.{capped, leaves_where};
ghost use Rattle.run_code.specs.Collecting.{put_leaves};
ghost use Rattle.run_store.specs.Stored as stored;
ghost use Rattle.run_cells.specs.Sights.{seen_value};
ghost use Rattle.step_code.specs.Laid.{collect_in, puts_of};
ghost use Rattle.sequential.specs.Agrees.{owned_all};
ghost use Rattle.sequential_loops.specs.Putting.{collections_of};

use crate::columns::{column, said};
use crate::rows::collect_at;
use flow_value::{Cause, Val, leaves};
use loop_folds::Keep;
use run_cells::{Cell, Seen, leaves_seen};
use step_code::Collect;

/// The copies so far, and those of what a row puts to collections.
pub fn with_puts(collects: &[Collect], row: &[Cell], before: u64) -> u64
    ensures { result ≡ capped (before + stored.put_copied (collections_of collects.now) (map puts_of collects.now) (owned_all row.now)) }
{
    let mut sum = before;
    for place in 0..collects.len() {
        let collect = collect_at(collects, place);
        sum = sum.saturating_add(put_leaves_of(collect, row));
    }
    sum
}

fn put_leaves_of(collect: Collect, row: &[Cell]) -> u64
    ensures { result ≡ min (if puts_of collect then put_leaves (collect_in collect) (owned_all row.now) else 0) 18446744073709551615 }
{
    match collect {
        Collect::Sifts {
            column: place,
            mask,
            copies,
        } => {
            if copies {
                kept_leaves(said(row, mask), column(row, place))
            } else {
                0
            }
        }
        Collect::Final { .. } => 0,
    }
}

fn kept_leaves(keep: Keep, seen: Seen<'_>) -> u64
    ensures { result ≡ min (leaves_where (val_of (seen_value seen.entry), keep)) 18446744073709551615 }
{
    match keep {
        Keep::Kept => value_leaves(seen),
        Keep::Dropped => 0,
        Keep::Failed(_) => 0,
    }
}

fn value_leaves(seen: Seen<'_>) -> u64
    ensures { result ≡ min (leaf_count (val_of (seen_value seen.entry))) 18446744073709551615 }
{
    match seen {
        Seen::Error(cause) => leaves(&Val::Err(cause)),
        Seen::Int(n) => leaves(&Val::Int(n)),
        Seen::Bool(b) => leaves(&Val::Bool(b)),
        Seen::Char(c) => leaves(&Val::Char(c)),
        Seen::Null => leaves(&Val::Null),
        Seen::UnionInt(_, _) => leaves_seen(seen),
        Seen::Value(v) => leaves(v),
        Seen::Elements(_) => leaves(&Val::Err(Cause::Explicit)),
        Seen::Rising(_, _) => leaves(&Val::Err(Cause::Explicit)),
        Seen::Spoiled(cause) => leaves(&Val::Err(cause)),
        Seen::Name(_) => leaves(&Val::Err(Cause::Explicit)),
        Seen::Unfilled => leaves(&Val::Err(Cause::Explicit)),
    }
}
