//! The law of numbers.
ghost use Rattle.unit_orders.specs.Laws.{AreGraphsNumbered};

/// The graphs of a well-formed unit in normal order bear the numbers from 1 on, in the order of their
/// places.
pub fn graphs_stand_by_their_numbers()
    ensures { AreGraphsNumbered }
{}
