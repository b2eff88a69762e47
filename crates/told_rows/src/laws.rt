//! The laws of what is told by rows.
ghost use Rattle.told_rows.specs.Rows.{AreUnitCopiesTold, AreUnitWritesTold};

/// Data that tells of each node of a unit what is written by its row tells what the unit's plan
/// weighs.
pub fn writes_by_rows_are_of_units()
    ensures { AreUnitWritesTold }
{}

/// So it is with copies, where what is told of a node's edges is right and nodes are fired so.
pub fn copies_by_rows_are_of_units()
    ensures { AreUnitCopiesTold }
{}
