//! The types of a program, each once, by number.
#![tactic(auto)]

mod form;
mod key;
mod store;
mod types;

pub use form::{Form, Member, members_of};
pub use types::{BOOLEAN, CHARACTER, INTEGER, NULL, TEXT, TypeNumbers, Types};
