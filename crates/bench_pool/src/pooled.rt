//! Values that are put in, lent, given back and taken out.
ghost use Rattle.std.specs.Prelude.{◌≡◌, ℕ, ◌<◌, IfOk};
ghost use Rattle.agg_pool.specs.Pools.{PoolView, entry_at, HoldsAnd, IsIdleIfAny};

use agg_pool::{Key, Pool};
use flow_value::{NoMemory, Val};
use std::alloc::Global;

fn number_of(value: &Val) -> i64 {
    match value {
        Val::Int(n) => *n,
        _ => 0,
    }
}

// A pool into which one value can be put.
fn pool_of_one(alloc: Global) -> Result<Pool, NoMemory>
    ensures spare { IfOk result (λ pool. 0 < pool.spare) }
    ensures idle { IfOk result (λ pool. (number : ℕ) → IsIdleIfAny (entry_at pool number)) }
{
    let mut pool = Pool::new(alloc);
    let reserved = pool.reserve(1);
    let Ok(()) = reserved else {
        pool.end();
        return Err(NoMemory);
    };
    Ok(pool)
}

fn put_and_take(pool: &mut Pool, value: Val) -> Result<Val, NoMemory>
    ensures value { IfOk result (λ taken. taken ≡ value) }
    ensures entries { (number : ℕ) → entry_at pool.new number ≡ entry_at pool.old number }
{
    pool.reserve(1)?;
    let key = pool.put(value);
    Ok(pool.take(key))
}

/// Puts a number in and takes it out, so many times. Gives the sum of what was taken out.
pub fn put_often(alloc: Global, steps: i64) -> Result<i64, NoMemory> {
    let mut pool = pool_of_one(alloc)?;
    let mut sum = 0i64;
    for i in 0..steps {
        let Ok(value) = put_and_take(&mut pool, Val::Int(i)) else {
            pool.end();
            return Err(NoMemory);
        };
        sum = sum.wrapping_add(number_of(&value));
    }
    pool.end();
    Ok(sum)
}

fn lend_and_read(pool: &mut Pool, key: Key) -> i64
    requires holds { HoldsAnd (entry_at pool.old key.number) (λ w. w.out ≡ 0) }
    ensures entries { (number : ℕ) → entry_at pool.new number ≡ entry_at pool.old number }
{
    let lease = pool.lend(key);
    let found = number_of(lease.get());
    pool.give_back(lease);
    found
}

/// Lends a number and takes the lease back, so many times. Gives the sum of what was read.
pub fn lend_often(alloc: Global, steps: i64) -> Result<i64, NoMemory> {
    let mut pool = pool_of_one(alloc)?;
    let key = pool.put(Val::Int(3));
    let mut sum = 0i64;
    for _ in 0..steps {
        sum = sum.wrapping_add(lend_and_read(&mut pool, key));
    }
    pool.end();
    Ok(sum)
}
