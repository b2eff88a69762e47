//! Cuts the iterations of a `for` into slices that workers can take.
#![tactic(auto)]

ghost use Rattle.std.specs.Prelude.{◌≡◌, ◌+◌, ◌*◌, ◌/◌, ◌<◌, ◌≤◌, ◌↔◌, length, IfOk, IsTrue};
ghost use Rattle.forall_slicer.specs.Slices.{slices, cut_point, BeginsAt, Joins};

use flow_value::{NoMemory, Seq};
use std::alloc::Global;

/// The most slices for each worker, so that a worker that is done early finds another one.
const SLICES_PER_WORKER: u64 = 4;

/// The iterations from `from` up to and without `to`, counted from 0.
#[derive(Clone, Copy, Debug, PartialEq, Eq)]
pub struct Slice {
    /// The first iteration.
    pub from: u64,
    /// One more than the last iteration.
    pub to: u64,
}

/// Slices in order.
pub type Slices = Seq<Slice>;

/// Cuts `n` iterations into at most four slices for each worker, of nearly equal lengths. None of
/// them is empty, so there are no more slices than iterations, and none at all for `n = 0`.
pub fn cut(alloc: Global, n: u64, workers: u32) -> Result<Slices, NoMemory>
    requires { 0 < workers }
    ensures exact { IfOk result (λ found. found ≡ slices n workers) }
    // Each slice is non-empty and begins where the one before it ends, from 0 up to n.
    ensures joins { IfOk result (λ found. Joins 0 n found) }
    ensures few { IfOk result (λ found. length found ≤ 4 * workers) }
{
    let count = n.min(SLICES_PER_WORKER * u64::from(workers));
    let mut found = Slices::new(alloc);
    for k in 0..count {
        found.add(Slice {
            from: cut_point(n, count, k),
            to: cut_point(n, count, k + 1),
        })?;
    }
    Ok(found)
}

/// Whether one of these slices begins with an iteration.
pub fn begins_at(n: u64, workers: u32, place: u64) -> bool
    requires { 0 < workers }
    ensures { IsTrue result ↔ BeginsAt n workers place }
{
    let most = n.min(SLICES_PER_WORKER * u64::from(workers));
    for slice in 0..most {
        if cut_point(n, most, slice) == place {
            return true;
        }
    }
    false
}

/// Where slice `k` of `count` begins, which is where the one before it ends.
fn cut_point(n: u64, count: u64, k: u64) -> u64
    requires some { 0 < count }
    requires within { k ≤ count }
    ensures { result ≡ cut_point n count k }
{
    (u128::from(k) * u128::from(n) / u128::from(count)) as u64
}
