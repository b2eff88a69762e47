//! Laws of the entry of a text's unit: it is that of the text's program, with parameters of the same types.
#![tactic(auto)]

mod laws;

pub use laws::{
    entries_of_programs_are_those_of_units, entries_of_units_are_those_of_programs,
    headers_have_the_types_of_entries, units_lack_what_programs_lack,
};
