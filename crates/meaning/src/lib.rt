//! What a typed SISAL program means (SISAL Language Reference Manual 1.2, expressions): the
//! definitions alone. `specs/Plain` is the definition of record, with a depth of calls and turns
//! alone; `specs/Meaning` bounds all turns of a loop by one depth.
#![tactic(auto)]

mod sources;
mod words;

pub use sources::Places;
pub use words::Test;
