//! Arrays that are built one after another.
ghost use Rattle.std.specs.Prelude.{◌≡◌, ◌≢◌, ℕ, ◌+◌, ◌≤◌, ◌∷◌, [], None, IfOk};
ghost use Rattle.segment.specs.Places.{unwritten};
ghost use Rattle.agg_pool.specs.Pools.{entry_at, BuildsAnd, HoldsAnd};

use agg_pool::{Key, Pool};
use flow_value::{NoMemory, Val};

/// Writes the one place of an array, and takes the array out.
fn write_and_take(pool: &mut Pool, key: Key) -> Val
    requires new { BuildsAnd (entry_at pool.old key.number) (λ room. room.places ≡ unwritten ∷ []) }
    ensures gone { entry_at pool.new key.number ≡ None }
    ensures others { (n : ℕ) → n ≢ key.number → entry_at pool.new n ≡ entry_at pool.old n }
{
    let mut part = pool.cut(key, 0, 1);
    part.write(0, Val::Int(7));
    pool.join_segment(part);
    pool.seal(key, 1);
    pool.take(key)
}

/// Builds an array of one place and takes it out again. Gives its key.
fn gather(pool: &mut Pool) -> Result<Key, NoMemory>
    requires vacant { (n : ℕ) → entry_at pool.old n ≡ None }
    ensures vacant { (n : ℕ) → entry_at pool.new n ≡ None }
{
    let key = pool.build(1)?;
    drop(write_and_take(pool, key));
    Ok(key)
}

/// How many keys so many arrays had that were built one after another, if memory was there for them.
pub fn gather_often(mut pool: Pool, arrays: u32) -> Option<u32>
    requires vacant { (n : ℕ) → entry_at pool n ≡ None }
{
    let mut keys = 0u32;
    let mut last = None;
    for _ in 0..arrays {
        match gather(&mut pool) {
            Ok(key) => {
                if last != Some(key) {
                    keys = keys.saturating_add(1);
                }
                last = Some(key);
            }
            Err(NoMemory) => {
                pool.end();
                return None;
            }
        }
    }
    pool.end();
    Some(keys)
}
