//! The laws.
ghost use Rattle.text_ready.specs.Laws.{AreTextsCovered, AreTextsReady};

use bound_trees::typed_texts_are_bound;
use fitting_texts::programs_of_texts_fit;
use lowered_ready::translated_units_are_ready;
use lowering_meaning::typed_programs_are_covered;

/// The loops of the program of a text are such that graphs can obey the rules: each `for` has a
/// generator, and each phrase of clauses one value where it has to.
pub fn programs_of_texts_are_covered()
    ensures { AreTextsCovered }
{
    typed_texts_are_bound();
    typed_programs_are_covered();
}

/// The unit of the program of a text within the limits is ready, where the text is at most 200 deep.
pub fn units_of_texts_are_ready()
    ensures { AreTextsReady }
{
    programs_of_texts_fit();
    programs_of_texts_are_covered();
    translated_units_are_ready();
}
