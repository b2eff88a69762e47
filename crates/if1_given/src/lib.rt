//! A law that an IF1 text without a fault gives a unit (IF1 Reference Manual 1.0, M-170, text form).
#![tactic(auto)]

mod laws;

pub use laws::a_faultless_text_gives_a_unit;
