//! The code that is made of a unit is whole: each number in it is inside, what its steps name is as long as is
//! asked, and each step goes on in its block. Laws without code.
#![tactic(auto)]

mod even_laws;
mod whole_laws;

pub use even_laws::{
    lines_of_even_plans_are_even, places_stand_in_blocks, plans_of_units_are_even,
};
pub use plan_data::{PlanData, number_at};
pub use quick_code::quicken;
pub use sequential_run::{RunFault, Totalled, run_function};
pub use told_rows::code_of;
pub use whole_laws::{
    code_of_units_can_be_entered, code_of_units_is_whole, nodes_of_units_are_seen,
    quick_code_is_whole,
};
