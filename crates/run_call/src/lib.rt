//! From a unit of graphs, or the IF1 text of one, and the words of its entry's arguments to the values and totals
//! of a run.
#![tactic(auto)]

mod call;
mod laws;
mod texts;

pub use call::run;
pub use laws::{no_run_passes_the_limit, words_have_one_run};
pub use texts::unit_of_text;
pub use unit_code::Totals;
