//! Laws of fitting trees: what the typing rules ask of operands is what a row takes, and the
//! program of a typed unit is a fitting tree (SISAL Language Reference Manual 1.2, operations,
//! expressions, programs).
#![tactic(auto)]

mod laws;

pub use laws::{typed_units_fit, typing_rules_give_rows};
