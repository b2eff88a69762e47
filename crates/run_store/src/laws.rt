//! The laws of the machine whose cells own their values.
ghost use Rattle.run_store.specs.Effects.{AreEffects, DoLead};
ghost use Rattle.run_store.specs.Refines.{Refines};
ghost use Rattle.run_store.specs.Lively.{IsNeverStuck};
ghost use Rattle.run_store.specs.Ports.{DoModesCopy, AreNodesLivelyInOrder};
ghost use Rattle.run_store.specs.Sums.{AreStoreSumsRecorded, AreUnitWritesRecorded, HaveEndsSums};
ghost use Rattle.run_store.specs.Whole.{DoRunsBegin, IsStoreExact, AreStoreEndsRecorded, AreStoreRunsDecided, AreUnitRunsDecided};

/// Each step of the machine on values is its effect on what it reads.
pub fn steps_are_effects()
    ensures { AreEffects }
{}

/// What a step writes lies where it may lead.
pub fn steps_lead_where_they_say()
    ensures { DoLead }
{}

/// Each step of the machine whose cells own their values is a step of the machine on values, with its
/// copies.
pub fn the_machine_that_owns_refines()
    ensures { Refines }
{}

/// No step reads a cell that is empty, and none takes what is lent.
pub fn the_machine_that_owns_is_never_stuck()
    ensures { IsNeverStuck }
{}

/// Where the cost of record is within the limit, the machine ends with the results, the cost and the
/// copies of record.
pub fn the_machine_that_owns_is_exact()
    ensures { IsStoreExact }
{}

/// Where it ends, its results, its firings and its copies are those of record.
pub fn ends_that_own_are_of_record()
    ensures { AreStoreEndsRecorded }
{}

/// Where its code stays inside, a run ends so, or it comes to the limit, and every cost is beyond it.
pub fn runs_that_own_are_decided()
    ensures { AreStoreRunsDecided }
{}

/// A run begins with its arguments in the first cells, each its own.
pub fn runs_that_own_begin()
    ensures { DoRunsBegin }
{}

/// Where each taker is the last user of its port, no node of the graph reads a cell that was taken, and
/// what is live behind a node was live before it or is one of its outputs.
pub fn nodes_are_lively_where_takers_are_last()
    ensures { AreNodesLivelyInOrder }
{}

/// Modes by marks copy exactly what is consumed and not taken, and so do the copies of given inputs.
pub fn modes_copy_what_is_consumed_and_left()
    ensures { DoModesCopy }
{}

/// So a run of code of a ready unit with sound marks is decided.
pub fn runs_of_units_are_decided()
    ensures { AreUnitRunsDecided }
{}

/// A run that ends adds up a sum by any weights.
pub fn runs_that_end_have_sums()
    ensures { HaveEndsSums }
{}

/// Where the code does its graphs with these weights too, it is the sum of record.
pub fn sums_that_own_are_of_record()
    ensures { AreStoreSumsRecorded }
{}

/// So what code of a ready unit with sound marks writes is of record.
pub fn writes_of_units_are_of_record()
    ensures { AreUnitWritesRecorded }
{}
