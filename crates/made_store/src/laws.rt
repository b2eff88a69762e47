//! The laws of code that is made with its settings.
ghost use Rattle.made_store.specs.Last.{AreMadeTakenLast};
ghost use Rattle.made_store.specs.Laws.{
  AreMadeUnitRunsDecided,
  AreMadeWritesRecorded,
  IsMadeStored,
  IsSetStored,
};
ghost use Rattle.made_store.specs.Marked.{AreMarkedRunsDecided};
ghost use Rattle.made_store.specs.Marks.{AreMarkedTakersLast, AreTakersOwned};
ghost use Rattle.made_store.specs.UnitWeights.{AreUnitWeights};
ghost use Rattle.made_store.specs.Weights.{AreModesWeights};

/// Where the places of code that is made of a right plan are set by its shares, no step reads what was
/// taken or takes what is lent, and its modes copy what the steps add.
pub fn code_that_is_set_is_stored_code()
    ensures { IsSetStored }
{}

/// The settings that are made beside the steps set them so.
pub fn code_that_is_made_is_stored_code()
    ensures { IsMadeStored }
{}

/// No step of it reads a cell behind an operand that takes it.
pub fn no_step_reads_behind_what_it_takes()
    ensures { AreMadeTakenLast }
{}

/// So each run of code that is made of a right plan of a ready unit with sound marks is decided.
pub fn runs_of_units_that_are_made_are_decided()
    ensures { AreMadeUnitRunsDecided }
{}

/// What such a run writes is of record.
pub fn writes_of_units_that_are_made_are_of_record()
    ensures { AreMadeWritesRecorded }
{}

/// Inputs that are taken by marks are owned.
pub fn takers_by_marks_are_owned()
    ensures { AreTakersOwned }
{}

/// Weights by modes that go by marks are those of record.
pub fn weights_by_modes_are_of_record()
    ensures { AreModesWeights }
{}

/// Takers by the marks of a ready unit with sound marks are last in each graph.
pub fn takers_by_marks_are_last()
    ensures { AreMarkedTakersLast }
{}

/// So they are for every unit, where a plan takes and copies by its marks.
pub fn weights_by_marks_of_units_are_of_record()
    ensures { AreUnitWeights }
{}

/// So nothing is asked of weights: a run of code that is made of a right plan that goes by the marks of a
/// ready unit is decided.
pub fn runs_of_units_by_marks_are_decided()
    ensures { AreMarkedRunsDecided }
{}
