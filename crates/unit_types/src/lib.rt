//! The types of a unit: which type a written type denotes, and what its type definitions and the
//! headers of its functions say (SISAL Language Reference Manual 1.2, types, programs and scope).
#![tactic(auto)]

mod declaring;
mod fault;
mod form;
mod header;
mod name_set;
mod open;
mod step;
mod type_names;
mod written;

pub use declaring::{Declared, declare};
pub use header::Signature;
pub use type_names::TypeNames;
pub use written::denoted;
