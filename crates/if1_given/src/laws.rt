//! The law.
ghost use Rattle.if1_given.specs.Laws.{FaultlessGives};

/// An IF1 text without a fault, which ends in no compound node, gives a unit.
pub fn a_faultless_text_gives_a_unit()
    ensures { FaultlessGives }
{}
