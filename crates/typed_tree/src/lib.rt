//! The typed tree of a SISAL program: each expression with the types of its values, each name by the
//! level of its value, each function, field and tag by its place.
#![tactic(auto)]

mod built_in;
mod expr;
mod operation;
mod program;

pub use built_in::{BuiltIn, built_in_named};
pub use expr::{Case, Choice, ClauseForm, Product, Source, Turns, TypedExpr, TypedKind};
pub use operation::{binary_operation, convert_operation, prefix_operation};
pub use program::{Function, Program};
pub use sisal_tree::Constant;
