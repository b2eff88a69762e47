//! A pool that asks for memory, which may be refused: what it holds, and what can be put in, stays.
ghost use Rattle.std.specs.Prelude.{◌≡◌, ℕ, ◌<◌, ◌≤◌, None};
ghost use Rattle.agg_pool.specs.Pools.{entry_at, HoldsAnd, IsIdleIfAny};

use crate::lending::{number, pass_through};
use agg_pool::{Key, Pool};
use flow_value::{NoMemory, Val};

/// What was held while memory was asked for, and what passed through after that.
pub type Kept = (i64, i64);

/// Puts a value in and takes it out again, takes out the one that was held, and ends the pool.
fn look_and_end(mut pool: Pool, key: Key) -> Kept
    requires room { 0 < pool.spare }
    requires held { HoldsAnd (entry_at pool key.number) (λ w. w.out ≡ 0) }
    requires idle { (n : ℕ) → IsIdleIfAny (entry_at pool n) }
{
    let passed = number(&pass_through(&mut pool, Val::Int(5)));
    let held = number(&pool.take(key));
    pool.end();
    (held, passed)
}

/// Holds a value while the pool asks for room for `n` values.
pub fn reserve_beside(mut pool: Pool, n: usize) -> Kept
    requires room { 2 ≤ pool.spare }
    requires vacant { (m : ℕ) → entry_at pool m ≡ None }
{
    let key = pool.put(Val::Int(7));
    let _granted = pool.reserve(n);
    look_and_end(pool, key)
}

/// Holds a value while the pool asks for an array of one place.
pub fn build_beside(mut pool: Pool) -> Kept
    requires room { 2 ≤ pool.spare }
    requires vacant { (m : ℕ) → entry_at pool m ≡ None }
{
    let key = pool.put(Val::Int(7));
    match pool.build(1) {
        Ok(_room) => look_and_end(pool, key),
        Err(NoMemory) => look_and_end(pool, key),
    }
}
