//! The grammar of SISAL 1.2 (SISAL Language Reference Manual 1.2, syntax): as the manual has it
//! (`specs/Spells`), and left-factored as a table for a parser with one token ahead.
#![tactic(auto)]

mod action;
mod back;
mod class;
mod law;
mod table;
mod value;

pub use action::{ACTIONS, Action, action_of};
pub use back::Back;
pub use class::class_of;
pub use law::{one_unit, table_spells};
pub use table::tables;
pub use value::{Bracket, ExprRest, Outline, Placed, Selector, Subject, SubjectRest, Test, Value};
