//! The laws of what items add.
ghost use Rattle.run_tables.specs.Adds.{DoItemsAdd, DoItemsAddOnce, AreSumsOfItems};
ghost use Rattle.run_tables.specs.Along.{AreSumsAlong};

/// Each item of a whole tree adds some number,
pub fn items_of_whole_runs_add()
    ensures { DoItemsAdd }
{}

/// and an item adds one.
pub fn items_add_once()
    ensures { DoItemsAddOnce }
{}

/// A sum by the recursion of the cost, as copies and writes are, is the sum over the items of a whole tree of what
/// each adds, and what the results of the graph that is run add.
pub fn sums_are_of_items()
    ensures { AreSumsOfItems }
{}

/// So where a legal history has ended with results, what its finished items add, one after another, makes the sum.
pub fn finished_items_add_up()
    ensures { AreSumsAlong }
{}
