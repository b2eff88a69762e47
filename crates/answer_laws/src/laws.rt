//! The laws.
ghost use Rattle.answer_laws.specs.Laws.{
  AreGraphsOnce,
  CompleteLaw,
  IsPrintedAgain,
  IsRunOnce,
  OneAnswerLaw,
};

use if1_marks::no_marks_are_sound;
use if1_read::accepted_has_no_fault;
use if1_unique::an_if1_text_gives_one_unit;
use if1_write::written_is_read;
use lowered_units::a_program_is_one_unit;
use one_lowering::typed_trees_are_lowered_alike;
use one_meaning::{a_program_answers_once, typed_trees_answer_alike, words_are_read_or_refused};
use run_words::words_have_one_meaning;
use sisal_grammar::one_unit;
use sisal_top::{a_program_has_one_text, no_run_passes_the_limit, words_have_one_run};
use typing_unique::a_unit_that_breaks_a_rule_is_no_program;

/// A unit of graphs has one answer to the words of `run`.
pub fn a_run_answers_once()
    ensures { IsRunOnce }
{
    words_have_one_run();
    no_run_passes_the_limit();
    words_are_read_or_refused();
}

/// A typed program has one unit of graphs and one text of it, or is past a limit.
pub fn graphs_answer_once()
    ensures { AreGraphsOnce }
{
    a_program_is_one_unit();
    a_program_has_one_text();
}

/// Words and the bytes of a text have one answer, but for want of memory and faults of the source.
/// Of `compile` this is said without `--dot` and `--why`.
pub fn words_and_texts_have_one_answer()
    ensures { OneAnswerLaw }
{
    words_have_one_meaning();
    one_unit();
    a_unit_that_breaks_a_rule_is_no_program();
    a_program_answers_once();
    typed_trees_answer_alike();
    accepted_has_no_fault();
    an_if1_text_gives_one_unit();
    no_marks_are_sound();
    a_run_answers_once();
    typed_trees_are_lowered_alike();
    graphs_answer_once();
}

/// Where words and a text have a result, it is printed, unless memory is wanting or the outside
/// failed.
pub fn results_are_printed()
    ensures { CompleteLaw }
{
    words_and_texts_have_one_answer();
}

/// What `if1` prints of a text it prints of that again, and gives nothing else, where it is not too
/// long to be read.
pub fn what_if1_prints_stays()
    ensures { IsPrintedAgain }
{
    words_have_one_meaning();
    written_is_read();
    words_and_texts_have_one_answer();
}
