//! The laws of what a machine keeps.
ghost use Rattle.run_events.specs.Events.{AreAllEventsKept};
ghost use Rattle.run_events.specs.Served.{DoesKeepingBegin, AreAllClaimsServed};

/// What is kept stands after a claim, where a port is taken, where a node is done, where an AScatter's lease is kept,
/// where a graph is entered or left, and where hands or the pool change.
pub fn events_are_kept()
    ensures { AreAllEventsKept }
{}

/// So it does at the beginning of a run.
pub fn what_is_kept_begins()
    ensures { DoesKeepingBegin }
{}

/// What a ready node reads or takes is there and is what the definition of record says, and of what it takes no lease is
/// out; and so are the results of a graph whose nodes are done.
pub fn claims_are_served()
    ensures { AreAllClaimsServed }
{}
