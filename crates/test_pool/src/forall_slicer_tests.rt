//! Slices of few iterations, of many, and for any workers.
use forall_slicer::{Slice, cut};
use std::test::Fail;

#[test]
fn slices_of_few_iterations_are_single(rt: HostRuntime) -> Result<(), Fail> {
    let slices = cut(rt.alloc(), 3, 16)?;
    let wanted = [
        Slice { from: 0, to: 1 },
        Slice { from: 1, to: 2 },
        Slice { from: 2, to: 3 },
    ];
    assert_eq!(rt; slices.as_slice(), wanted.as_slice());
    assert!(rt; cut(rt.alloc(), 0, 16)?.is_empty());
    Ok(())
}

#[test]
fn ten_iterations_for_one_worker(rt: HostRuntime) -> Result<(), Fail> {
    let slices = cut(rt.alloc(), 10, 1)?;
    let wanted = [
        Slice { from: 0, to: 2 },
        Slice { from: 2, to: 5 },
        Slice { from: 5, to: 7 },
        Slice { from: 7, to: 10 },
    ];
    assert_eq!(rt; slices.as_slice(), wanted.as_slice());
    Ok(())
}

#[test]
fn any_workers_share_every_iteration(rt: HostRuntime) -> Result<(), Fail> {
    for workers in 1..17u32 {
        for n in 0..140u64 {
            let slices = cut(rt.alloc(), n, workers)?;
            let mut next = 0;
            for slice in slices.as_slice() {
                assert_eq!(rt; slice.from, next, "{n} for {workers}");
                assert!(rt; slice.from < slice.to, "{n} for {workers}");
                next = slice.to;
            }
            assert_eq!(rt; next, n, "{n} for {workers}");
            let wanted = n.min(4 * u64::from(workers));
            assert_eq!(rt; slices.len() as u64, wanted, "{n} for {workers}");
        }
    }
    Ok(())
}
