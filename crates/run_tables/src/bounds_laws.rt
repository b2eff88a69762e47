//! The laws of how many claims a run has.
ghost use Rattle.run_tables.specs.Bounds.{AreClaimsBounded, AreSlicesFew, AreWorkersBounded};

/// A legal history has so many claims for each firing that it counts, and for each that its limit allows, where
/// iterations are cut into few slices; and no more finishes than claims.
pub fn claims_are_bounded()
    ensures { AreClaimsBounded }
{}

/// The slices for so many workers are at most four for each.
pub fn slices_are_few()
    ensures { AreSlicesFew }
{}

/// So with the slices for so many workers a legal history has at most 4 claims for each worker and 3 more, for each
/// firing.
pub fn claims_of_workers_are_bounded()
    ensures { AreWorkersBounded }
{}
