//! The typing rules of SISAL on types by number: what a form of expression makes of operands of
//! some types, what a clause of a loop makes of its values, and which arm each tag of a union has.
#![tactic(auto)]

mod applying;
mod arms;
mod calls;
mod distinct;
mod fault;
mod folds;
mod head;
mod laws;
mod lookups;
mod made;
mod records;
mod scalars;
mod sequences;
mod unnamed;

pub use applying::apply;
pub use arms::Choices;
pub use fault::{Refused, TypeFault};
pub use folds::{Made, clause};
pub use head::{Applied, Head};
pub use laws::{clauses_by_type, forms_by_type};
pub use lookups::{element_of, member_in_union, tags_of};
pub use unnamed::unnamed_head;
