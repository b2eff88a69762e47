//! The whole program as one call, from the bytes of a source to the bytes of a sink.
#![tactic(auto)]

mod call;
mod front;
mod lines;
mod printing;
mod status;
mod texts;

pub use call::sisal;
pub use compile_call::a_program_has_one_text;
pub use lines::report;
pub use run_call::{no_run_passes_the_limit, words_have_one_run};
pub use status::{CallFault, Status, SyntaxFault, TextFault, UnitFault, UsageFault};
