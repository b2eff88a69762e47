//! Cells of a running machine, each of which has a value of its own, or refers to what a cell of
//! another block owns.
#![tactic(auto)]

mod boxed;
mod cell;
mod counting;
mod lending;
mod seen;

pub use boxed::Boxed;
pub use cell::{Cell, Lent, Part, Parts};
pub use counting::leaves_seen;
pub use lending::{is_plain, lent_at, owner_at};
pub use seen::{
    Seen, cell_of, content, copied, element, elements, in_cell, owned_by, part_of, union_of,
};
