//! The laws of what steps add.
ghost use Rattle.code_weights.specs.Laws.{AreCodeCopiesOfPlans, AreCodeWritesOfPlans};

/// A step that fires a node writes what its line adds by the weights of what is written, where the
/// data tells so of each node.
pub fn writes_of_code_are_of_plans()
    ensures { AreCodeWritesOfPlans }
{}

/// So it copies what its line adds by the weights of copies, of operands of which the step and its
/// setting copy as much, and of as many outputs as it is wide.
pub fn copies_of_code_are_of_plans()
    ensures { AreCodeCopiesOfPlans }
{}
