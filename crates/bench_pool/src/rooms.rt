//! Arrays that are built, and written place by place.
ghost use Rattle.std.specs.Prelude.{◌≡◌, ◌≢◌, ℕ, ◌≤◌, length, replicate, IsTrue, None};
ghost use Rattle.std.specs.List.{list_all};
ghost use Rattle.segment.specs.Places.{unwritten, is_written};
ghost use Rattle.agg_pool.specs.Pools.{entry_at, BuildsAnd};

use agg_pool::{Key, Pool, Segment};
use flow_value::{NoMemory, Val};
use std::alloc::Global;

// Begins an array in a pool of its own, and gives it up.
fn build(alloc: Global, places: usize) -> Result<(), NoMemory>
    requires few { places ≤ 4194304 }
{
    let mut pool = Pool::new(alloc);
    let built = pool.build(places);
    let Ok(_key) = built else {
        pool.end();
        return Err(NoMemory);
    };
    pool.end();
    Ok(())
}

/// Begins so many arrays. Gives how many.
pub fn build_often(alloc: Global, arrays: i64, places: usize) -> Result<i64, NoMemory>
    requires few { places ≤ 4194304 }
{
    for _ in 0..arrays {
        build(alloc, places)?;
    }
    Ok(arrays)
}

// Writes each place of a part.
fn fill(part: &mut Segment, places: usize)
    requires few { places ≤ 4194304 }
    requires unwritten { part.old.part.places ≡ replicate places unwritten }
    ensures of { (part.new.number ≡ part.old.number) × (part.new.part.start ≡ part.old.part.start) × (part.new.part.from ≡ part.old.part.from) }
    ensures long { length part.new.part.places ≡ places }
    ensures written { IsTrue (list_all is_written part.new.part.places) }
{
    for i in 0..places {
        part.write(i, Val::Int(i as i64));
    }
}

// Writes a new array, and takes it out.
fn write_and_take(pool: &mut Pool, key: Key, places: usize) -> Val
    requires few { places ≤ 4194304 }
    requires new { BuildsAnd (entry_at pool.old key.number) (λ room. room.places ≡ replicate places unwritten) }
    ensures gone { entry_at pool.new key.number ≡ None }
    ensures others { (n : ℕ) → n ≢ key.number → entry_at pool.new n ≡ entry_at pool.old n }
{
    let mut part = pool.cut(key, 0, places);
    fill(&mut part, places);
    pool.join_segment(part);
    pool.seal(key, 1);
    pool.take(key)
}

fn gather(pool: &mut Pool, places: usize) -> Result<(), NoMemory>
    requires few { places ≤ 4194304 }
    requires vacant { (n : ℕ) → entry_at pool.old n ≡ None }
    ensures vacant { (n : ℕ) → entry_at pool.new n ≡ None }
{
    let key = pool.build(places)?;
    drop(write_and_take(pool, key, places));
    Ok(())
}

/// Builds so many arrays, one after another, and writes each of their places. Gives how many.
pub fn gather_often(alloc: Global, arrays: i64, places: usize) -> Result<i64, NoMemory>
    requires few { places ≤ 4194304 }
{
    let mut pool = Pool::new(alloc);
    for _ in 0..arrays {
        let Ok(()) = gather(&mut pool, places) else {
            pool.end();
            return Err(NoMemory);
        };
    }
    pool.end();
    Ok(arrays)
}
