//! The laws of what texts run as.
ghost use Rattle.text_meaning.specs.Laws.{AreMarkedTextsReady, AreTextsMeant, AreTextsSourced};

use fitting_texts::programs_of_texts_fit;
use lowered_units::translated_units_are_normal;
use mark_units::marks_made_keep_units_ready;
use text_ready::units_of_texts_are_ready;

/// The unit of a text within the limits is ready with the marks that are made.
pub fn marked_units_of_texts_are_ready()
    ensures { AreMarkedTextsReady }
{
    programs_of_texts_fit();
    translated_units_are_normal();
    units_of_texts_are_ready();
    marks_made_keep_units_ready();
}

/// Where the source of a function of a text gives values on arguments of the types of its parameters, the
/// function's graph in the unit that runs means these values, with a cost of at most 8 times the steps.
pub fn texts_that_give_values_are_run()
    ensures { AreTextsMeant }
{
    marked_units_of_texts_are_ready();
}

/// What that graph gives at a cost, the source gives, in at least an eighth as many steps.
pub fn texts_give_what_is_run()
    ensures { AreTextsSourced }
{
    marked_units_of_texts_are_ready();
}
