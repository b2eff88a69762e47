//! Laws of types: what an expression or a call of a fitting tree gives belongs to its types
//! (SISAL Language Reference Manual 1.2, expressions).
#![tactic(auto)]

mod laws;

pub use laws::{
    calls_give_values_of_their_types, expressions_give_values_of_their_types,
    functions_of_typed_units_give_values_of_their_types, names_spelled_alike_break_types,
    one_plus_true_does_not_fit, runs_meet_what_they_take,
};
