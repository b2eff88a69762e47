//! The laws of loops.
ghost use Rattle.loop_columns.specs.Generators.{DoGoThrough, AreLowerBounds};
ghost use Rattle.loop_columns.specs.Clauses.{AreFoldedByColumns, AreFoldNodes};
ghost use Rattle.loop_columns.specs.Loops.{AreForAllsGiven, AreForAllsRead};
ghost use Rattle.loop_columns.specs.Collected.{AreCollected};
ghost use Rattle.loop_columns.specs.Turns.{AreTestsSaid, AreLoopsGiven, AreLoopsRead};

/// Generators go through the places of the source with its names, or give its error.
pub fn generators_go_through_places()
    ensures { DoGoThrough }
{}

/// The lower bound of an `array of` is the first number of a range, that of the array, or 1.
pub fn arrays_begin_at_their_lower_bounds()
    ensures { AreLowerBounds }
{}

/// What clauses make of rows, their nodes make of the columns of the rows.
pub fn clauses_fold_columns()
    ensures { AreFoldedByColumns }
{}

/// The node of a clause gives what the clause makes of its multiples.
pub fn nodes_fold_multiples()
    ensures { AreFoldNodes }
{}

/// What the source gives for a `for` over generators, its ForAll gives, with at most eight firings a
/// step.
pub fn for_alls_give_what_the_source_gives()
    ensures { AreForAllsGiven }
{}

/// Where a ForAll fires, the source gives values.
pub fn for_alls_fire_where_the_source_gives()
    ensures { AreForAllsRead }
{}

/// The graph of a test says what the source goes by; that of an `until` gives its Not.
pub fn tests_say_what_the_source_goes_by()
    ensures { AreTestsSaid }
{}

/// What the source gives for a `for initial`, its LoopA or LoopB gives, with at most eight firings a
/// step.
pub fn loops_give_what_the_source_gives()
    ensures { AreLoopsGiven }
{}

/// Where a LoopA or LoopB fires, the source gives values.
pub fn loops_fire_where_the_source_gives()
    ensures { AreLoopsRead }
{}

/// The values of the clauses of a `for initial` are collected at the places that lowering gives them.
pub fn clauses_are_collected_at_their_places()
    ensures { AreCollected }
{}
