//! An array whose parts two threads write.
ghost use Rattle.std.specs.Prelude.{◌≡◌, ◌≢◌, ℕ, ◌∷◌, [], None};
ghost use Rattle.flow_value.specs.declared.value.Val.TheVariants as value;
ghost use Rattle.segment.specs.Places.{unwritten, written};
ghost use Rattle.agg_pool.specs.Pools.{entry_at, HoldsAnd, BuildsAnd};

use agg_pool::{Key, Pool, Segment};
use flow_value::{NoMemory, Val};
use std::thread::{Threads, join_mut};

/// Two threads write a segment each.
fn write_two<R: Threads>(rt: &R, low: &mut Segment, high: &mut Segment, first: i64, second: i64)
    requires low { low.old.part.places ≡ unwritten ∷ [] }
    requires high { high.old.part.places ≡ unwritten ∷ [] }
    ensures low { low.new ≡ record low.old { part = record low.old.part { places = written (value.Int first) ∷ [] } } }
    ensures high { high.new ≡ record high.old { part = record high.old.part { places = written (value.Int second) ∷ [] } } }
{
    join_mut(
        rt,
        &mut || -> ()
            requires { low.now.part.places ≡ unwritten ∷ [] }
            ensures { low.exit.now ≡ record low.entry.now { part = record low.entry.now.part { places = written (value.Int first) ∷ [] } } }
        { low.write(0, Val::Int(first)) },
        &mut || -> ()
            requires { high.now.part.places ≡ unwritten ∷ [] }
            ensures { high.exit.now ≡ record high.entry.now { part = record high.entry.now.part { places = written (value.Int second) ∷ [] } } }
        { high.write(0, Val::Int(second)) },
    );
}

/// Two threads write an array of two places, which is then whole.
fn written_by_two<R: Threads>(rt: &R, pool: &mut Pool, key: Key)
    requires new { BuildsAnd (entry_at pool.old key.number) (λ room. room.places ≡ unwritten ∷ unwritten ∷ []) }
    ensures whole { HoldsAnd (entry_at pool.new key.number) (λ w. w.out ≡ 0) }
    ensures others { (n : ℕ) → n ≢ key.number → entry_at pool.new n ≡ entry_at pool.old n }
{
    let mut high = pool.cut(key, 1, 2);
    let mut low = pool.cut(key, 0, 1);
    write_two(rt, &mut low, &mut high, 10, 20);
    pool.join_segment(low);
    pool.join_segment(high);
    pool.seal(key, 1);
}

/// The array of 10 and 20 from 1, which two threads write; then the pool ends.
fn build_and_end<R: Threads>(rt: &R, mut pool: Pool, key: Key) -> Val
    requires new { BuildsAnd (entry_at pool key.number) (λ room. room.places ≡ unwritten ∷ unwritten ∷ []) }
    requires others { (n : ℕ) → n ≢ key.number → entry_at pool n ≡ None }
{
    written_by_two(rt, &mut pool, key);
    let array = pool.take(key);
    pool.end();
    array
}

/// The array of 10 and 20 from 1, which two threads write.
pub fn build_by_two<R: Threads>(rt: &R, mut pool: Pool) -> Result<Val, NoMemory>
    requires vacant { (n : ℕ) → entry_at pool n ≡ None }
{
    match pool.build(2) {
        Ok(key) => Ok(build_and_end(rt, pool, key)),
        Err(fail) => {
            pool.end();
            Err(fail)
        }
    }
}
