//! The law of runs.
ghost use Rattle.sequential_run.specs.Laws.{DoStoredRunsBegin};

/// Where code is stored code of a unit and stays inside, a machine that stands at the entry of a
/// function, with its inputs, has begun a run, so that it can be run.
pub fn runs_of_stored_code_begin()
    ensures { DoStoredRunsBegin }
{}
