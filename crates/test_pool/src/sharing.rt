//! An array each place of which is a segment of its own, which four threads write.
ghost use Rattle.std.specs.Prelude.{◌≡◌, ◌≢◌, ℕ, ◌+◌, ◌<◌, ◌≤◌, ◌∷◌, [], List, length, map, replicate, slice_index_or, None, pos, IfOk};
ghost use Rattle.std.specs.Vec.{vec_len, vec_capacity};
ghost use denote.RawPtr.{Ptr};
ghost use Rattle.flow_value.specs.Bounds.{bounded};
ghost use Rattle.flow_value.specs.declared.value.Val.TheVariants as value;
ghost use Rattle.segment.specs.Places.{away, unwritten, written};
ghost use Rattle.agg_pool.specs.Parts.{Cut};
ghost use Rattle.agg_pool.specs.Pools.{entry_at};
ghost use Rattle.test_pool.specs.Shares.{room_at, AreShares, with_place, number_at, counted};

use agg_pool::{Key, Pool, Segment};
use flow_value::{NoMemory, Val};
use std::alloc::Global;
use std::thread::{Threads, for_each_mut};

const THREADS: usize = 4;

/// Cuts a new room of `n` places into as many segments, and adds them to `parts` in order.
fn cut_all(pool: &mut Pool, key: Key, n: usize, parts: &mut Vec<Segment>)
    requires room { n ≤ vec_capacity parts.old }
    requires empty { vec_len parts.old ≡ 0 }
    requires new { (start : Ptr) × (entry_at pool.old key.number ≡ room_at start (replicate n unwritten)) }
    ensures cut { (start : Ptr) × (entry_at pool.new key.number ≡ room_at start (replicate n away)) × AreShares key.number start (λ _. unwritten) parts.new.items }
    ensures all { vec_len parts.new ≡ n }
    ensures others { (m : ℕ) → m ≢ key.number → entry_at pool.new m ≡ entry_at pool.old m }
{
    for i in 0..n {
        let part = pool.cut(key, i, i + 1);
        parts.push_reserved(part);
    }
}

/// Four threads write the segments, each its share of them, in any order.
fn write_all<R: Threads + Sync>(rt: &R, parts: &mut [Segment])
    requires few { length parts.old ≤ 4194304 }
    requires unwritten { (i : ℕ) (d : Cut) → i < length parts.old → (slice_index_or parts.old i d).part.places ≡ unwritten ∷ [] }
    ensures written { (i : ℕ) (d : Cut) → i < length parts.old → slice_index_or parts.new i d ≡ with_place (slice_index_or parts.old i d) (number_at i) }
{
    for_each_mut(
        rt,
        parts,
        THREADS,
        &|i: usize, part: &mut Segment| -> ()
            requires { (i < 4194304) × (part.now.part.places ≡ unwritten ∷ []) }
            ensures { part.exit.now ≡ with_place part.entry.now (number_at i) }
        { part.write(0, Val::Int(i as i64 + 1)) },
    );
}

/// Puts the segments back, from the last to the first.
fn join_all(pool: &mut Pool, key: Key, mut parts: Vec<Segment>)
    requires cut { (start : Ptr) × (entry_at pool.old key.number ≡ room_at start (replicate (vec_len parts) away)) × AreShares key.number start number_at parts.items }
    ensures whole { (start : Ptr) × (entry_at pool.new key.number ≡ room_at start (map written (counted (vec_len parts) 1))) }
    ensures others { (m : ℕ) → m ≢ key.number → entry_at pool.new m ≡ entry_at pool.old m }
{
    while let Some(part) = parts.pop() {
        pool.join_segment(part);
    }
    parts.destroy_empty();
}

/// Seals an array that is whole, and takes it out.
fn sealed(pool: &mut Pool, key: Key, n: usize) -> Val
    requires few { n ≤ 4194304 }
    requires whole { (start : Ptr) × (entry_at pool.old key.number ≡ room_at start (map written (counted n 1))) }
    ensures array { result ≡ value.Arr (bounded (pos 1) (counted n 1)) }
    ensures gone { entry_at pool.new key.number ≡ None }
    ensures others { (m : ℕ) → m ≢ key.number → entry_at pool.new m ≡ entry_at pool.old m }
{
    pool.seal(key, 1);
    pool.take(key)
}

/// The array of a new room of `n` places, which four threads write.
fn written_by_four<R: Threads + Sync>(
    rt: &R,
    pool: &mut Pool,
    key: Key,
    n: usize,
    mut parts: Vec<Segment>,
) -> Val
    requires few { n ≤ 4194304 }
    requires room { n ≤ vec_capacity parts }
    requires empty { vec_len parts ≡ 0 }
    requires new { (start : Ptr) × (entry_at pool.old key.number ≡ room_at start (replicate n unwritten)) }
    ensures array { result ≡ value.Arr (bounded (pos 1) (counted n 1)) }
    ensures gone { entry_at pool.new key.number ≡ None }
    ensures others { (m : ℕ) → m ≢ key.number → entry_at pool.new m ≡ entry_at pool.old m }
{
    cut_all(pool, key, n, &mut parts);
    write_all(rt, &mut parts);
    join_all(pool, key, parts);
    sealed(pool, key, n)
}

/// The array of the integers from 1 to `n`, from 1, each place of which is a segment of its own; four threads write
/// these.
pub fn build_by_four<R: Threads + Sync>(
    rt: &R,
    alloc: Global,
    mut pool: Pool,
    n: usize,
) -> Result<Val, NoMemory>
    requires few { n ≤ 4194304 }
    requires vacant { (m : ℕ) → entry_at pool m ≡ None }
    ensures array { IfOk result (λ array. array ≡ value.Arr (bounded (pos 1) (counted n 1))) }
{
    let Ok(parts) = Vec::with_capacity(alloc, n) else {
        pool.end();
        return Err(NoMemory);
    };
    let Ok(key) = pool.build(n) else {
        parts.destroy_empty();
        pool.end();
        return Err(NoMemory);
    };
    let array = written_by_four(rt, &mut pool, key, n, parts);
    pool.end();
    Ok(array)
}
