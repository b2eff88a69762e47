//! The laws of tables.
ghost use Rattle.plan_tables.specs.Laws.{AreSizedByTables, AreTablesOfPlans};

/// Tables that are right for the data are right for each plan that stands in it: the steps of each
/// graph, and where functions begin.
pub fn tables_are_of_plans()
    ensures { AreTablesOfPlans }
{}

/// So are both tables of each graph, its steps and its cells, where those of cells are exact and the
/// plan copies inputs for the parts of compound nodes alone.
pub fn plans_are_sized_by_tables()
    ensures { AreSizedByTables }
{}
