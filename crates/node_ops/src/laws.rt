//! The law of operands.
ghost use Rattle.node_ops.specs.Laws.{DoOperandsStand};

/// Operands that are made of what is carried into the ports of a node stand for it, where it fits
/// the row of the node.
pub fn operands_stand()
    ensures { DoOperandsStand }
{}
