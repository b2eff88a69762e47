//! Two small units that are worked out whole: a Select between literals, and an array that is changed in place.
#![tactic(auto)]

mod units;

pub use units::{
    the_change_is_right, the_change_is_worked_out, the_choice_is_right, the_choice_is_worked_out,
};
