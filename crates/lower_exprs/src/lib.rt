//! Expressions of a typed program are lowered to graphs: the cycle over the typed tree, with names by
//! level (SISAL Language Reference Manual 1.2, expressions; IF1 manual M-170).
#![tactic(auto)]

mod foralls;
mod turns;
mod walk;

pub use walk::{expr, expressions};
