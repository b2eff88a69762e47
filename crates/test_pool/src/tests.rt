use crate::{
    build_beside, build_by_four, build_by_two, empty_pool, gather_often, lend_to_two,
    reserve_beside,
};
use flow_value::{Items, Val, array_of, same};
use std::alloc::Global;
use std::test::Fail;

#[test]
fn a_value_is_read_by_two_threads_while_another_passes_through(
    rt: HostRuntime,
) -> Result<(), Fail> {
    let pool = empty_pool(rt.alloc(), 2)?;
    let seen = lend_to_two(&rt, pool);
    assert_eq!(rt; seen, (7, 7, 5));
    Ok(())
}

/// The integers as an array from 1.
fn array(alloc: Global, numbers: &[i64]) -> Result<Val, Fail> {
    let mut items = Items::new(alloc);
    for n in numbers {
        items.add(Val::Int(*n))?;
    }
    Ok(array_of(1, items))
}

#[test]
fn an_array_is_written_by_two_threads(rt: HostRuntime) -> Result<(), Fail> {
    let alloc = rt.alloc();
    let pool = empty_pool(alloc, 0)?;
    let built = build_by_two(&rt, pool)?;
    assert!(rt; same(&built, &array(alloc, &[10, 20])?));
    Ok(())
}

/// The integers from 1 to `n` as an array from 1.
fn counted(alloc: Global, n: i64) -> Result<Val, Fail> {
    let mut items = Items::new(alloc);
    for i in 0..n {
        items.add(Val::Int(i + 1))?;
    }
    Ok(array_of(1, items))
}

#[test]
fn sixteen_segments_are_written_by_four_threads(rt: HostRuntime) -> Result<(), Fail> {
    let alloc = rt.alloc();
    let pool = empty_pool(alloc, 0)?;
    let built = build_by_four(&rt, alloc, pool, 16)?;
    assert!(rt; same(&built, &counted(alloc, 16)?));
    Ok(())
}

#[test]
fn a_million_arrays_one_after_another_lie_under_one_key(rt: HostRuntime) -> Result<(), Fail> {
    let pool = empty_pool(rt.alloc(), 1)?;
    let Some(keys) = gather_often(pool, 1_000_000) else {
        return Err(Fail::new("no memory"));
    };
    assert_eq!(rt; keys, 1);
    Ok(())
}

// Where memory is ample nothing is refused: `rt try --test --fail-alloc N` refuses the Nth request of each test. The pool
// has the first seven, and those of `reserve` and `build` come next.

#[test]
fn a_pool_that_is_refused_room_is_as_it_was(rt: HostRuntime) {
    let alloc = rt.alloc();
    let Ok(pool) = empty_pool(alloc, 4) else {
        return;
    };
    assert_eq!(rt; reserve_beside(pool, 5), (7, 5));
}

#[test]
fn a_pool_that_is_refused_an_array_is_as_it_was(rt: HostRuntime) {
    let alloc = rt.alloc();
    let Ok(pool) = empty_pool(alloc, 4) else {
        return;
    };
    assert_eq!(rt; build_beside(pool), (7, 5));
}
