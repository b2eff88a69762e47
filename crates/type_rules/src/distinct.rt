//! Lists in which no number stands twice.
ghost use Rattle.std.specs.Prelude.{◌≡◌, ℕ, IfOk, OnOk, not, nat_eq};
ghost use Rattle.std.specs.List.{list_any};
ghost use Rattle.indexmap.specs.IndexSet.{insert_key};
ghost use Rattle.type_rules.specs.Records.{are_distinct};

use flow_value::NoMemory;
use indexmap::IndexSet;
use std::alloc::Global;

/// Whether a number is not yet in a set; then it is there.
fn put(seen: &mut IndexSet<u32>, number: u32) -> Result<bool, NoMemory>
    ensures is_new { IfOk result (λ b. b ≡ not (list_any (nat_eq number) seen.old.keys)) }
    ensures keys { OnOk result (seen.new.keys ≡ insert_key nat_eq seen.old.keys number) }
{
    let (_, is_new) = seen.insert_full(number)?;
    Ok(is_new)
}

/// Whether no number stands twice.
pub fn are_distinct(alloc: Global, numbers: &[u32]) -> Result<bool, NoMemory>
    ensures { IfOk result (λ b. b ≡ are_distinct numbers.now) }
{
    let mut behind = IndexSet::new(alloc);
    let mut at = numbers.len();
    while at > 0 {
        at -= 1;
        let number = numbers[at];
        let is_new = put(&mut behind, number)?;
        if !is_new {
            return Ok(false);
        }
    }
    Ok(true)
}
