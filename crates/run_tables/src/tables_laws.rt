//! The laws of tables for histories.
ghost use Rattle.run_tables.specs.Followed.{AreTablesThere, DoRunsEnd, AreCostsDecided};

/// A legal history has ended, or a table of live graphs stands for it.
pub fn histories_have_tables()
    ensures { AreTablesThere }
{}

/// From each legal history in which all that was claimed is finished, one worker comes to an end, after no more rounds
/// than the bound on claims allows, whatever outcomes the work gives; and some outcome there is.
pub fn runs_of_one_worker_end()
    ensures { DoRunsEnd }
{}

/// It is known of each limit whether the cost of a graph on its inputs is within it.
pub fn costs_are_decided()
    ensures { AreCostsDecided }
{}
