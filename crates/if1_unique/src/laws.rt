//! The laws.
ghost use Rattle.if1_unique.specs.Laws.{IsOneUnit};

/// An IF1 text gives at most one unit.
pub fn an_if1_text_gives_one_unit()
    ensures { IsOneUnit }
{}
