//! The laws of runs of SISAL texts.
ghost use Rattle.answer_laws.specs.Sources.{AreRunsOfTexts, AreSourcesPrinted};

use meaning_laws::plain_depths_agree;
use one_meaning::{typed_trees_answer_alike, words_are_read_or_refused};
use run_words::words_have_one_meaning;
use sisal_grammar::one_unit;
use typing_unique::a_unit_that_breaks_a_rule_is_no_program;

/// What `run` of a SISAL text prints is the values that each typed program of the text gives on the
/// words, by the definition of record, in at least an eighth as many steps as nodes fired.
pub fn runs_of_texts_print_what_the_source_gives()
    ensures { AreRunsOfTexts }
{
    plain_depths_agree();
    typed_trees_answer_alike();
    words_have_one_meaning();
    one_unit();
}

/// Where a typed program of the text gives values on the words, the text is within the limits of the
/// translation, and 8 times the steps are within the limit of firings, `run` prints these values, unless
/// memory is wanting or the outside failed.
pub fn sources_within_the_limits_are_printed()
    ensures { AreSourcesPrinted }
{
    plain_depths_agree();
    typed_trees_answer_alike();
    words_are_read_or_refused();
    words_have_one_meaning();
    one_unit();
    a_unit_that_breaks_a_rule_is_no_program();
}
