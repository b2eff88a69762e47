//! The laws of runs of the code of a unit.
ghost use Rattle.unit_runs.specs.Alike.{DoAlike};
ghost use Rattle.unit_runs.specs.Literals.{AreMadeBare};
ghost use Rattle.unit_runs.specs.Quick.{IsQuickUnitCode};
ghost use Rattle.unit_runs.specs.Runs.{AreUnitCodeRunsRecorded};
ghost use Rattle.unit_runs.specs.Writes.{AreUnitCodeWritesRecorded, DoesQuickCodeWrite};
ghost use Rattle.unit_runs.specs.Units.{AreUnitGraphsBare, AreUnitPartsPassed, AreUnitPortsBare};

/// Where two handlings agree by what each step reads, and simple nodes add the same, each step of the
/// machine whose cells own their values is the same.
pub fn handlings_that_agree_do_the_same()
    ensures { DoAlike }
{}

/// Where in each graph of a plan no port copies a literal that has leaves, nor an input that may be one, no
/// step of the code that is made of it does.
pub fn literals_are_not_copied()
    ensures { AreMadeBare }
{}

/// No port of a node or boundary of a ready unit copies a literal that has leaves, or an input that may be
/// one: an input from which no edge of an aggregate leaves.
pub fn ports_of_units_copy_no_literal()
    ensures { AreUnitPortsBare }
{}

/// What a node of a ready unit passes to its parts by a literal, or by an input that may be one, no edge of
/// an aggregate leaves there.
pub fn parts_of_units_pass_literals_on()
    ensures { AreUnitPartsPassed }
{}

/// So no port of the plan of a ready unit copies a literal that has leaves.
pub fn plans_of_units_copy_no_literal()
    ensures { AreUnitGraphsBare }
{}

/// So each run of the code of a ready unit with sound marks is decided, and its end is of record.
pub fn runs_of_unit_code_are_of_record()
    ensures { AreUnitCodeRunsRecorded }
{}

/// And what a run writes that ends is of record, where each step writes what its line adds.
pub fn writes_of_unit_code_are_of_record()
    ensures { AreUnitCodeWritesRecorded }
{}

/// Where the code of a unit counts copies, so does code whose steps do the same, and it is the unit's.
pub fn quick_code_is_of_units()
    ensures { IsQuickUnitCode }
{}

/// And where it writes what the lines of the plan add, so does code whose steps do the same.
pub fn quick_code_writes_as_much()
    ensures { DoesQuickCodeWrite }
{}
