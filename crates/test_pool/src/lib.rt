//! Callers of the pool, proved by its clauses alone: a value that two threads read while the pool goes on, an array
//! whose parts two threads write, one of any size each place of which is a segment that one of four threads writes, and
//! a pool that is refused memory. Beside them stand the tests of public calls, of the pool and of other crates, which have a
//! module each.
#![tactic(auto)]

mod building;
mod gathering;
mod lending;
mod opening;
mod refusing;
mod sharing;

pub use building::build_by_two;
pub use gathering::gather_often;
pub use lending::{Seen, lend_to_two};
pub use opening::empty_pool;
pub use refusing::{Kept, build_beside, reserve_beside};
pub use sharing::build_by_four;

#[cfg(test)]
mod fire_lock_tests;
#[cfg(test)]
mod forall_slicer_tests;
#[cfg(test)]
mod front_list_tests;
#[cfg(test)]
mod lease_tests;
#[cfg(test)]
mod segment_tests;
#[cfg(test)]
mod tests;
