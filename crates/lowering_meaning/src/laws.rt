//! The laws of what lowered graphs mean.
ghost use Rattle.lowering_meaning.specs.Laws.{AreCostsThere, AreRunsMeant, AreRunsSourced, AreTypedCovered, AreValuesKept};

/// On arguments of the types of its parameters, where the source gives values to a function of a
/// translated program, the function's graph means these values, with a cost of at most 8 times the
/// steps. The program's unit is ready, as each is that `translate` gives, and its forms are those of a
/// typed program.
pub fn values_are_those_of_the_source()
    ensures { AreValuesKept }
{}

/// There the graph has a cost only where the source gives values.
pub fn costs_come_where_values_do()
    ensures { AreCostsThere }
{}

/// So it is of the unit with the marks that are made, which is the one that runs: where the source gives
/// values, its graph means these values, with a cost of at most 8 times the steps.
pub fn sources_that_give_values_are_run()
    ensures { AreRunsMeant }
{}

/// What the graph of a function of that unit gives at a cost, the source gives, in at least an eighth as
/// many steps.
pub fn runs_give_what_the_source_gives()
    ensures { AreRunsSourced }
{}

/// The program of a typed unit is of the forms of these laws: each clause of a loop has one value, but
/// that of a loop over the results of another, which has as many as these, and no mask; and no field of a
/// record is replaced twice at once. No name of the unit is spelled as another one, as none of a text is.
pub fn typed_programs_are_covered()
    ensures { AreTypedCovered }
{}
