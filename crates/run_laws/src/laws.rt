//! The laws of the machine.
ghost use Rattle.run_laws.specs.Laws.{DoesItAll, AreEndsRecorded, IsExact};
ghost use Rattle.run_laws.specs.Stopping.{IsStopping, IsDecided};
ghost use Rattle.run_laws.specs.Facts.{StaysTrue};
ghost use Rattle.run_laws.specs.Weighing.{GiveTheSameTotals};

/// Where the ordered meaning gives results at a cost within the limit, the machine ends with them at that
/// many firings, and adds the sum.
pub fn the_machine_does_it_all()
    ensures { DoesItAll }
{}

/// Where the machine ends, its results, its firings and what it adds are those of the definition of
/// record.
pub fn ends_are_of_record()
    ensures { AreEndsRecorded }
{}

/// Where the cost of record is within the limit, the machine ends with the results of record at it.
pub fn the_machine_is_exact()
    ensures { IsExact }
{}

/// A machine whose code stays inside comes to its end or to the limit.
pub fn the_machine_stops()
    ensures { IsStopping }
{}

/// A run ends with the results of record at their cost, within the limit, or it comes to the limit, and
/// every cost is beyond it.
pub fn runs_are_decided()
    ensures { IsDecided }
{}

/// What is known of cells at each place, that one is the element of another, stays true.
pub fn what_is_known_stays_true()
    ensures { StaysTrue }
{}

/// Weights that are alike on a unit give the same sums.
pub fn alike_weights_give_the_same_sums()
    ensures { GiveTheSameTotals }
{}
