//! The aggregates of a run. Under a lock a value is put into the pool, lent, given back and taken out; outside the
//! lock a worker reads what it was lent, or writes its part of a new array, while the pool goes on changing.
#![tactic(auto)]

mod entry;
mod parts;
mod pool;
mod table;

pub use entry::{Building, Entry};
pub use parts::{Key, Lease, Segment};
pub use pool::Pool;
