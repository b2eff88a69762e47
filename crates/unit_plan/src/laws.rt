//! The laws of the plan of a unit.
ghost use Rattle.unit_plan.specs.Laws.{
  AreUnitPlanWritesRecorded,
  AreUnitPlansDecided,
  AreUnitPlansRight,
  AreUnitTablesThere,
  AreUnitWritesRight,
  DoUnitPlansPickForParts,
};

/// The plan of a ready unit with sound marks is right, with tables that are right.
pub fn plans_of_units_are_right()
    ensures { AreUnitPlansRight }
{}

/// So it is with the weights of what is written.
pub fn writes_of_plans_are_right()
    ensures { AreUnitWritesRight }
{}

/// Such tables are there.
pub fn tables_of_units_are_there()
    ensures { AreUnitTablesThere }
{}

/// It copies inputs for the parts of compound nodes alone.
pub fn plans_of_units_pick_for_parts()
    ensures { DoUnitPlansPickForParts }
{}

/// So a run of the code that is made of the plan is decided, where its shares are right.
pub fn runs_of_plans_of_units_are_decided()
    ensures { AreUnitPlansDecided }
{}

/// And what such a run writes is of record.
pub fn writes_of_plans_of_units_are_of_record()
    ensures { AreUnitPlanWritesRecorded }
{}
