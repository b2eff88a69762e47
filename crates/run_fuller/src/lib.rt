//! Cells that have more than the machine whose cells own their values has in its own. Laws without
//! code: a machine may leave what was taken where it was.
#![tactic(auto)]

mod laws;

pub use laws::fuller_cells_do_the_same;
