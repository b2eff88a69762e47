//! Laws of types: operands of the types of an operation give a value of its type, and so do folds
//! (SISAL Language Reference Manual 1.2, operations; IF1 manual M-170, simple nodes).
#![tactic(auto)]

mod laws;

pub use laws::{folds_give_values_of_their_types, rows_give_values_of_their_types};
