//! The laws of programs of texts.
ghost use Rattle.fitting_texts.specs.Laws.{AreResultsRead, DoTextsFit, DoTextsGiveTypes, DoTextsMeetWhatTheyTake};

/// The program of a typed unit of a text fits.
pub fn programs_of_texts_fit()
    ensures { DoTextsFit }
{}

/// On arguments of the types of its parameters, a function of a text gives values of the types of its
/// results, and so many, at every depth.
pub fn functions_of_texts_give_values_of_their_types()
    ensures { DoTextsGiveTypes }
{}

/// On arguments of the types of its parameters, whatever a function of a text meets is what is taken
/// there: operands of the kinds of a row, or errors; truth values; unions that have an arm.
pub fn functions_of_texts_meet_what_they_take()
    ensures { DoTextsMeetWhatTheyTake }
{}

/// What is printed of the results of a function of a text reads as these values, each at its type.
pub fn results_of_texts_are_read()
    ensures { AreResultsRead }
{}
