//! The laws of code that is made of a plan.
ghost use Rattle.run_made.specs.Laws.{AreMadeRunsDecided, DoLinesLie, IsCodeInside, IsCodeOfGraphs};
ghost use Rattle.run_made.specs.Orders.{AreOrdersReadable};
ghost use Rattle.run_made.specs.Tables.{AreLevelsEnough, AreTablesThere};

/// Where the lines of a right plan lie, the steps of each function do its graph.
pub fn code_that_is_made_does_its_graphs()
    ensures { IsCodeOfGraphs }
{}

/// Its steps stay inside their blocks.
pub fn code_that_is_made_stays_inside()
    ensures { IsCodeInside }
{}

/// In the code that is made, they lie so.
pub fn lines_that_are_made_lie()
    ensures { DoLinesLie }
{}

/// A run of it ends with the results of record at their cost, within the limit, or it comes to the
/// limit, and every cost is beyond it.
pub fn runs_of_what_is_made_are_decided()
    ensures { AreMadeRunsDecided }
{}

/// In an order along data edges and ordering lists nodes read what was given before, and labels stand
/// once.
pub fn orders_are_readable()
    ensures { AreOrdersReadable }
{}

/// Where the graphs inside a graph have greater numbers, tables of steps and cells are there.
pub fn tables_of_plans_are_there()
    ensures { AreTablesThere }
{}

/// And graphs can be laid with as many levels as there are numbers.
pub fn levels_by_numbers_are_enough()
    ensures { AreLevelsEnough }
{}
