//! Simple nodes that change an array, a stream or a record in place. `fire_taken` and `extend_taken`
//! are told the node; `update_taken` and `add_high_taken` are its two commonest rows without a list
//! of operands.
#![tactic(auto)]

mod adding;
mod arrays;
mod extending;
mod operands;
mod records;
mod removing;
mod taken;

pub use adding::add_high_taken;
pub use arrays::update_taken;
pub use extending::extend_taken;
pub use taken::fire_taken;
