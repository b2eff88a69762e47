//! What phrases become apart from the expressions inside of them: constants, operations, the arms of a
//! `tagcase`, the generators and the returns of loops (SISAL Language Reference Manual 1.2,
//! expressions; IF1 manual M-170).
#![tactic(auto)]

mod choices;
mod loops;
mod operations;
mod wiring;

pub use choices::{
    arms_of, content_of, element_of, first_tags, is_array, tag_count, two_arms, type_of,
};
pub use loops::{
    Bound, Placed, begin, bound_of, flag_at, generator_part, many_inputs, returns_part, shut_part,
    single_inputs, types_of, unless_places,
};
pub use operations::{applied, constant, row};
pub use wiring::{BOOLEAN, INTEGER, append, inside, nil, one, one_more, wire_at};
