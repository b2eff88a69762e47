//! Translated units are ready: formed, with right ports and types, and no node reaches itself. The rules are said of
//! lowered graphs, of which each place of a unit has one, before there are labels and text (IF1 manual M-170).
//! Definitions and laws.
#![tactic(auto)]

mod order_laws;
mod place_laws;
mod port_laws;
mod ready_laws;
mod rule_laws;
mod sort_laws;
mod type_laws;

pub use lowered_units::translated_units_are_formed;
pub use order_laws::{translated_units_are_acyclic, translated_units_are_in_order};
pub use place_laws::places_stand_as_lowered;
pub use port_laws::ports_hold_where_rules_do;
pub use ready_laws::translated_units_are_ready;
pub use rule_laws::lowered_graphs_obey_the_rules;
pub use sort_laws::{numbers_have_their_types, types_are_read_back};
pub use type_laws::right_programs_have_typed_units;
