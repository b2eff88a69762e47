//! From the tokens of a SISAL text to its tree: exactly the units of the grammar (SISAL Language
//! Reference Manual 1.2, syntax) that nest at most 200 deep, the first token at which no unit goes
//! on, or a line on which an expression that is too deep begins.
#![tactic(auto)]

mod fault;
mod steps;
mod units;

pub use fault::ParseFault;
pub use units::parse;
