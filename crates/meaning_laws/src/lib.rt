//! Laws of what a typed program means: the definition with a depth of calls and turns alone, and
//! that it gives what the definition gives that the evaluator computes (SISAL Language Reference
//! Manual 1.2, expressions).
#![tactic(auto)]

mod laws;

pub use laws::{
    calls_go_one_less, definitions_agree, limits_agree, plain_depths_agree, plain_mean,
    turns_go_one_less,
};
