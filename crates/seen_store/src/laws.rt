//! The laws of code that reads through paths.
ghost use Rattle.seen_store.specs.Laws.{IsSeenStored};
ghost use Rattle.seen_store.specs.Made.{AreSeenRunsDecided};

/// Where some cells are read through paths in place of themselves, and are not kept, stored code does the
/// same, with the same copies.
pub fn code_may_be_read_through_paths()
    ensures { IsSeenStored }
{}

/// So a run of the code that is made of a unit is decided, where some cells are read through paths.
pub fn runs_through_paths_are_decided()
    ensures { AreSeenRunsDecided }
{}
