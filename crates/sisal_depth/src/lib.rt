//! How deep the expressions of a SISAL text nest, told from the derivation of the text before any
//! tree is made: a text may nest without limit, and only a text of limited depth gets a tree.
#![tactic(auto)]

mod sizes;
mod step;
mod walk;

pub use walk::{Deepest, depth_of};
