//! The text of values: how a value is printed, and what a text spells.
#![tactic(auto)]

mod fault;
mod numbered;
mod print;
mod read;
mod read_by;
mod scalars;
mod spelling;
mod survey;
mod survey_by;
mod token;
mod type_form;

pub use fault::ValueFault;
pub use numbered::NumberedTypes;
pub use print::print_value;
pub use read::{printed_is_read, read_texts_fit, read_value, spells_one_value};
pub use read_by::read_value_by;
pub use type_form::TypeForm;
