//! The law.
ghost use Rattle.lowered_ready.specs.Shapes.{ArePlacesShaped};

/// At each place of a translated unit stands the lowered graph of its number, as the graph of the
/// function of that place or as that part of a node.
pub fn places_stand_as_lowered()
    ensures { ArePlacesShaped }
{}
