//! What each node of a graph of a unit does, as data, and how many outputs it has.
#![tactic(auto)]

mod counts;
mod functions;
mod into;
mod outputs;
mod parts;
mod results;
mod shapes;
mod tables;
mod task;
mod widths;
mod works;

pub use functions::Callee;
pub use outputs::output_types;
pub use shapes::shape_at;
pub use tables::{UnitTables, function_inputs, tables_of};
pub use task::Task;
pub use widths::widths_of;
pub use works::task_of;
