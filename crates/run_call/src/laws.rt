//! What is so of runs.
ghost use Rattle.run_call.specs.Laws.{IsNoneBeyond, IsOneRun};

use graph_meaning::{copies_of_units_are_one, the_cost_is_one, the_meaning_is_one};

/// On words the entry of a unit has at most one run: one list of values, at one cost, with so many copies.
pub fn words_have_one_run()
    ensures { IsOneRun }
{
    the_meaning_is_one();
    the_cost_is_one();
    copies_of_units_are_one();
}

/// It has none where each cost is above the limit.
pub fn no_run_passes_the_limit()
    ensures { IsNoneBeyond }
{}
