//! The laws.
ghost use Rattle.lowered_ready.specs.OrderLaws.{AreAcyclic, AreInOrder};

/// In each graph of a translated unit the edges into a node come from its boundary or from nodes of
/// smaller labels, and those into the boundary from its own inputs or from its nodes.
pub fn translated_units_are_in_order()
    ensures { AreInOrder }
{}

/// In a translated unit no node reaches itself.
pub fn translated_units_are_acyclic()
    ensures { AreAcyclic }
{}
