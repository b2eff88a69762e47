//! The laws of ranges of iterations.
ghost use Rattle.run_ranges.specs.Ranges.{DoRangesGo, DoRangesOfRecordGo};
ghost use Rattle.run_ranges.specs.Joined.{AreRangesCut, DoCollectionsJoin};
ghost use Rattle.run_ranges.specs.Owned.{AreRangesDecided, AreRangesOfRecord};
ghost use Rattle.run_ranges.specs.Eaches.{AreEachesOfForAlls};
ghost use Rattle.run_ranges.specs.Alone.{AreRangesAloneDecided, DoRangesAloneBegin};
ghost use Rattle.run_ranges.specs.Agreeing.{AreAgreeingRangesOfRecord, DoAgreeingRangesAloneBegin, DoAgreeingRangesBegin};
ghost use Rattle.run_ranges.specs.Stopping.{DoRangesAloneStop, DoRangesThatStopBegin};
ghost use Rattle.run_ranges.specs.Taken.{DoEachesTakeAbove};
ghost use Rattle.run_ranges.specs.Units.{AreUnitEachesOfForAlls, AreUnitRangesOfRecord, DoUnitRangesBegin, DoesUnitCodeAgree};
ghost use Rattle.run_ranges.specs.Quick.{AreQuickRangesOfRecord, DoQuickRangesBegin};
ghost use Rattle.run_ranges.specs.Runs.{AreRangesOfCodeOfRecord, DoRangesOfCodeBegin, DoRangesOfRunsBegin};

/// From before one iteration of a ForAll the machine on values comes to before a later one: it counts
/// one firing for each iteration between them and the firings of its body, and puts what each row gives
/// to the collections.
pub fn ranges_go()
    ensures { DoRangesGo }
{}

/// So it goes where the definition of record gives results and a cost for the rows of a range.
pub fn ranges_of_record_go()
    ensures { DoRangesOfRecordGo }
{}

/// The first state before a later iteration to which the machine comes whose cells own their values has
/// the firings of record more, and its collections are with the results of record.
pub fn ranges_are_of_record()
    ensures { AreRangesOfRecord }
{}

/// Where what is live is in its cell, it comes to such a state, or it comes to the limit, and the cost is
/// beyond it.
pub fn ranges_are_decided()
    ensures { AreRangesDecided }
{}

/// Where a range has rows of record, so have two ranges into which it is cut, and their costs add up to its own.
pub fn ranges_are_cut()
    ensures { AreRangesCut }
{}

/// What is collected of two ranges one behind the other is what is collected of the one, joined with what is collected
/// of the other.
pub fn collections_join()
    ensures { DoCollectionsJoin }
{}

/// In code that is made of a plan, each Each is that of a ForAll whose body keeps to itself.
pub fn eaches_are_of_for_alls()
    ensures { AreEachesOfForAlls }
{}

/// So it is in code: the first state before a later iteration has the firings of record more, and its
/// collections are with the results of record.
pub fn ranges_of_code_are_of_record()
    ensures { AreRangesOfCodeOfRecord }
{}

/// And where what is live is in its cell, a machine that stands before an iteration has begun the range.
pub fn ranges_of_code_begin()
    ensures { DoRangesOfCodeBegin }
{}

/// Where a run was begun, and the machine of the laws comes to stand before an iteration, the range up to
/// it was begun.
pub fn ranges_of_runs_begin()
    ensures { DoRangesOfRunsBegin }
{}

/// So it is on a block that stands alone: what stands there below the collections, as inputs and multiples,
/// may be lent, where no iteration takes it.
pub fn ranges_alone_are_decided()
    ensures { AreRangesAloneDecided }
{}

/// And in code, a machine that stands there has begun the range.
pub fn ranges_alone_begin()
    ensures { DoRangesAloneBegin }
{}

/// In code whose steps do the same as those of stored code, though it may handle otherwise what no step
/// reads, the first state before a later iteration is of record too.
pub fn ranges_that_agree_are_of_record()
    ensures { AreAgreeingRangesOfRecord }
{}

/// And where what is live is in its cell, a machine that stands there before an iteration has begun the range.
pub fn ranges_that_agree_begin()
    ensures { DoAgreeingRangesBegin }
{}

/// So has one on a block that stands alone.
pub fn ranges_alone_that_agree_begin()
    ensures { DoAgreeingRangesAloneBegin }
{}

/// In code that is made of a plan with shares that are right, no iteration of a ForAll takes what stands
/// below its collections.
pub fn eaches_take_above()
    ensures { DoEachesTakeAbove }
{}

/// The code of a ready unit that counts copies does the same as what is made of its plan.
pub fn unit_code_agrees()
    ensures { DoesUnitCodeAgree }
{}

/// So each Each of it is that of a ForAll whose body keeps to itself.
pub fn unit_eaches_are_of_for_alls()
    ensures { AreUnitEachesOfForAlls }
{}

/// And a machine that stands there before an iteration, on a block that stands alone, has begun the range.
pub fn unit_ranges_begin()
    ensures { DoUnitRangesBegin }
{}

/// What it comes to is of record.
pub fn unit_ranges_are_of_record()
    ensures { AreUnitRangesOfRecord }
{}

/// So has a machine that runs code whose steps do the same as those of a unit's code.
pub fn quick_ranges_begin()
    ensures { DoQuickRangesBegin }
{}

/// And what that one comes to is of record.
pub fn quick_ranges_are_of_record()
    ensures { AreQuickRangesOfRecord }
{}

/// Whatever a body does, within a limit a machine on a block that stands alone comes before a later iteration,
/// or to the limit.
pub fn ranges_alone_stop()
    ensures { DoRangesAloneStop }
{}

/// And in code whose steps do the same, a machine that stands there has begun the range.
pub fn ranges_that_stop_begin()
    ensures { DoRangesThatStopBegin }
{}
