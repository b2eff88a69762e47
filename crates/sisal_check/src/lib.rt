//! The types of a SISAL text: from its tree to its typed program, or the first rule that it breaks
//! with the line (SISAL Language Reference Manual 1.2, types, scope and programs).
#![tactic(auto)]

mod bodies;
mod calls;
mod cases;
mod clauses;
mod defs;
mod generators;
mod heads;
mod leaves;
mod lists;
mod loops;
mod making;
mod state;
mod texts;
mod turns;
mod typed;
mod units;

pub use texts::units_of_texts_are_texts;
pub use type_rules::TypeFault;
pub use units::check;
