//! Laws of the units that texts within the limits run as: they are ready, and on arguments of the types of
//! its parameters, the graph of a function of a text gives what the source gives (SISAL Language Reference
//! Manual 1.2; IF1 manual M-170).
#![tactic(auto)]

mod laws;

pub use laws::{
    marked_units_of_texts_are_ready, texts_give_what_is_run, texts_that_give_values_are_run,
};
