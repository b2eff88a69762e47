//! The outputs of each simple node but a call, from operands that are lent or owned.
#![tactic(auto)]

mod dispatch;
mod folds;
mod generators;
mod laws;
mod looks;
mod operands;
mod reading;
mod records;
mod row;

pub use dispatch::{fire, fire_one};
pub use laws::operands_stand;
pub use reading::{element, field, first, is_empty, limit_high, limit_low, size};
