//! What holds of texts that are read.
ghost use Rattle.if1_read.specs.Laws.{AcceptedHasNoFault};

/// A text that gives a unit has no fault: if it is refused, then for want of memory.
pub fn accepted_has_no_fault()
    ensures { AcceptedHasNoFault }
{}
