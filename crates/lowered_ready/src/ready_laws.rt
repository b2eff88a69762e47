//! The law.
ghost use Rattle.lowered_ready.specs.Laws.{AreReady};

use crate::{
    lowered_graphs_obey_the_rules, ports_hold_where_rules_do, right_programs_have_typed_units,
    translated_units_are_acyclic, translated_units_are_formed,
};

/// The unit of a fitting program within the limits is ready, where its loops are such that graphs can
/// obey the rules.
pub fn translated_units_are_ready()
    ensures { AreReady }
{
    translated_units_are_formed();
    translated_units_are_acyclic();
    lowered_graphs_obey_the_rules();
    ports_hold_where_rules_do();
    right_programs_have_typed_units();
}
