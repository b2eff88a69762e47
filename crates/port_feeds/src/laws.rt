//! What lends an input is what fills the operand at its place.
ghost use Rattle.port_feeds.specs.Lenders.{DoLendersFeed};

/// The port that lends an input of a graph is the source that the network of the unit has for the operand
/// at its place, of the node in which the graph is; and the input is not owned.
pub fn lenders_feed_operands()
    ensures { DoLendersFeed }
{}
