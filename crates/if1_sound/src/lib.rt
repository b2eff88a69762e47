//! Units that are known to have sound marks.
#![tactic(auto)]

mod sound;

pub use sound::Sound;
