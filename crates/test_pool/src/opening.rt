//! A pool to begin with.
ghost use Rattle.std.specs.Prelude.{◌≡◌, ℕ, ◌≤◌, None, IfOk};
ghost use Rattle.agg_pool.specs.Pools.{entry_at};

use agg_pool::Pool;
use flow_value::NoMemory;
use std::alloc::Global;

/// A pool with nothing in it and room for so many values.
pub fn empty_pool(alloc: Global, values: usize) -> Result<Pool, NoMemory>
    ensures room { IfOk result (λ pool. values ≤ pool.spare) }
    ensures vacant { IfOk result (λ pool. (n : ℕ) → entry_at pool n ≡ None) }
{
    let mut pool = Pool::new(alloc);
    match pool.reserve(values) {
        Ok(()) => Ok(pool),
        Err(fail) => {
            pool.end();
            Err(fail)
        }
    }
}
