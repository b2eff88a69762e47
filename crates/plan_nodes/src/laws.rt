//! The laws of nodes that are made.
ghost use Rattle.plan_nodes.specs.Made.{IsNothingMade};

/// No nodes and no collections are those of no vertices.
pub fn nothing_is_made_of_no_vertices()
    ensures { IsNothingMade }
{}
