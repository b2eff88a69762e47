//! What the labels of a type table stand for, by number.
#![tactic(auto)]

mod forms;
mod found;
mod kind;
mod laws;
mod lines;
mod numbered;
mod parameters;
mod params;
mod shapes;
mod skips;
mod sorts;
mod step;
mod table;
mod walk;

pub use forms::{ListForm, SortForm, TyForm};
pub use laws::a_number_stands_for_one_thing;
pub use numbered::Sorts;
pub use parameters::Parameter;
pub use params::{parameters_of, params_of};
pub use shapes::Shapes;
pub use sorts::sorts_of;
pub use table::number_at;
