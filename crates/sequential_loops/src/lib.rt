//! Steps of loops: values that are kept and put to collections, multiples that are spread, and
//! iterations.
#![tactic(auto)]

mod adding;
mod behind;
mod columns;
mod copying;
mod iterating;
mod keeping;
mod laying;
mod lengths;
mod moving;
mod numbers;
mod once;
mod pushing;
mod putting;
mod rows;
mod spreading;
mod weighing;

pub use adding::{add, push};
pub use iterating::each;
pub use keeping::{carry, keep_values};
pub use lengths::first_places;
pub use spreading::spread;
