//! Room in the vectors of a pool.
ghost use Rattle.std.specs.Prelude.{◌≡◌, ◌+◌, ◌≤◌, ◌<◌, OnOk};
ghost use Rattle.std.specs.Vec.{vec_len, vec_capacity};

use crate::entry::Entry;
use flow_value::{NoMemory, Val};

/// Makes room for one more entry, and for the numbers and the boxes of all entries to come back.
pub(crate) fn make_room(
    entries: &mut Vec<Option<Entry>>,
    free: &mut Vec<usize>,
    spare: &mut Vec<Box<Val>>,
) -> Result<(), NoMemory>
    requires { (vec_len free.old ≤ vec_len entries.old) × (vec_len spare.old ≤ vec_len entries.old) }
    ensures same { (entries.new.items ≡ entries.old.items) × (free.new.items ≡ free.old.items) × (spare.new.items ≡ spare.old.items) }
    ensures same_lengths { (vec_len entries.new ≡ vec_len entries.old) × (vec_len free.new ≡ vec_len free.old) × (vec_len spare.new ≡ vec_len spare.old) }
    ensures never_less { (vec_capacity free.old ≤ vec_capacity free.new) × (vec_capacity spare.old ≤ vec_capacity spare.new) }
    ensures ok { OnOk result ((vec_len entries.new < vec_capacity entries.new) × (vec_len entries.new < vec_capacity free.new) × (vec_len entries.new < vec_capacity spare.new)) }
{
    entries.reserve(1)?;
    free.reserve(entries.len() - free.len() + 1)?;
    spare.reserve(entries.len() - spare.len() + 1)?;
    Ok(())
}
