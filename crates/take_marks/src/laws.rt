//! What units give for the marks of their graphs.
ghost use Rattle.take_marks.specs.Laws.{AreGraphsMarkable};

/// In a ready unit in normal order each graph is in shape for `marks_in`, and whether its edges are
/// consuming ones from owned ports is a test that its marks ask for.
pub fn graphs_of_ready_units_are_markable()
    ensures { AreGraphsMarkable }
{}
