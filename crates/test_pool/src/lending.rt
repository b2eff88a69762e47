//! A value that two threads read while another one passes through the pool.
ghost use Rattle.std.specs.Prelude.{◌≡◌, ℕ, ◌<◌, ◌≤◌, None};
ghost use Rattle.agg_pool.specs.Pools.{entry_at};

use agg_pool::{Lease, Pool};
use flow_value::Val;
use std::thread::{Threads, join_mut};

/// What two readers saw, and what passed.
pub type Seen = (i64, i64, i64);

/// Puts a value in and takes it out again.
pub(crate) fn pass_through(pool: &mut Pool, value: Val) -> Val
    requires room { 0 < pool.old.spare }
    ensures value { result ≡ value }
    ensures as_before { (n : ℕ) → entry_at pool.new n ≡ entry_at pool.old n }
{
    let key = pool.put(value);
    pool.take(key)
}

/// The integer, if the value is one.
pub(crate) fn number(value: &Val) -> i64 {
    match value {
        Val::Int(n) => *n,
        _ => 0,
    }
}

/// Two threads read a lent value.
fn read_both<R: Threads>(rt: &R, lease: &Lease, first: &mut i64, second: &mut i64) {
    join_mut(
        rt,
        &mut || -> () { *first = number(lease.get()) },
        &mut || -> () { *second = number(lease.get()) },
    );
}

/// Two threads read a lent value while another one passes through the pool.
fn read_beside<R: Threads + Sync>(rt: &R, pool: &mut Pool, lease: &Lease, seen: &mut Seen)
    requires room { 0 < pool.old.spare }
    ensures as_before { (n : ℕ) → entry_at pool.new n ≡ entry_at pool.old n }
{
    let mut seen_by_first = 0;
    let mut seen_by_second = 0;
    let mut passed = 0;
    join_mut(
        rt,
        &mut || -> ()
            requires { 0 < pool.now.spare }
            ensures { (n : ℕ) → entry_at pool.exit.now n ≡ entry_at pool.entry.now n }
        { passed = number(&pass_through(pool, Val::Int(5))) },
        &mut || -> () { read_both(rt, lease, &mut seen_by_first, &mut seen_by_second) },
    );
    *seen = (seen_by_first, seen_by_second, passed);
}

/// Lends a value to two threads while another one passes through the pool, takes it out again, and ends the pool.
pub fn lend_to_two<R: Threads + Sync>(rt: &R, mut pool: Pool) -> Seen
    requires room { 2 ≤ pool.spare }
    requires vacant { (n : ℕ) → entry_at pool n ≡ None }
{
    let mut seen = (0, 0, 0);
    let key = pool.put(Val::Int(7));
    let lease = pool.lend(key);
    read_beside(rt, &mut pool, &lease, &mut seen);
    pool.give_back(lease);
    drop(pool.take(key));
    pool.end();
    seen
}
