//! The functions of a typed program are lowered to graphs, one after another in the order of the text
//! (SISAL Language Reference Manual 1.2, programs).
#![tactic(auto)]

mod functions;

pub use functions::lowered_functions;
