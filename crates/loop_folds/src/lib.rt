//! What a clause of a loop makes of its values, with masks, by reductions: each collects the elements of a list
//! at its end, and joins with what another has collected of the elements that follow.
#![tactic(auto)]

mod catenate;
mod clause;
mod extremes;
mod folding;
mod gather;
mod kept;
mod last;
mod making;
mod masking;
mod masks;
mod over;
mod product;
mod reduction;
mod seen;
mod sum;

pub use catenate::Catenate;
pub use clause::Clause;
pub use extremes::{Greatest, Least};
pub use flow_value::{Name, Numbers, Scalar1, Scalar2, item_at};
pub use folding::Folding;
pub use gather::Gather;
pub use last::Last;
pub use masking::{Keep, Masking};
pub use masks::keep;
pub use over::reduce;
pub use product::Product;
pub use reduction::Reduction;
pub use sum::Sum;
