//! The laws of the making of plans.
ghost use Rattle.plan_builder.specs.Laws.{AreCollectsOfWays, AreOutletsOfUnits, AreOutputsInExtents};

/// The nodes of a graph in the plan of a unit are those of its labels, widths and order, also where a
/// returns is done on what is collected.
pub fn outlets_are_of_units()
    ensures { AreOutletsOfUnits }
{}

/// What is collected for a node of a returns is what the plan of a unit collects for it.
pub fn collects_are_of_ways()
    ensures { AreCollectsOfWays }
{}

/// The outputs of the nodes of a graph stand in the cells that these nodes take by the data.
pub fn outputs_are_in_extents()
    ensures { AreOutputsInExtents }
{}
