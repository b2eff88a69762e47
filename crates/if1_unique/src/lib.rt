//! Laws that an IF1 text gives at most one unit (IF1 Reference Manual 1.0, M-170, text form).
#![tactic(auto)]

mod laws;

pub use laws::an_if1_text_gives_one_unit;
