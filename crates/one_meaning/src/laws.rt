//! The laws.
ghost use Rattle.one_meaning.specs.Laws.{AreAnswersMoved, AreNumbersNothing, AreWordsOnce, IsOneMeaning, IsProgramOnce};

use meaning_laws::plain_depths_agree;
use typing_unique::{a_unit_is_one_program, typed_trees_have_one_shape};
use value_text::read_texts_fit;

/// A program means the same without the numbers of its types.
pub fn numbers_of_types_mean_nothing()
    ensures { AreNumbersNothing }
{}

/// Two typed trees of one unit give the same, whatever their tables of types.
pub fn a_unit_has_one_meaning()
    ensures { IsOneMeaning }
{
    typed_trees_have_one_shape();
}

/// What one typed tree of a unit answers to the words of `mean`, each answers.
pub fn typed_trees_answer_alike()
    ensures { AreAnswersMoved }
{
    typed_trees_have_one_shape();
    a_unit_is_one_program();
    a_unit_has_one_meaning();
}

/// Words are read as one list of values of types, or have one first fault.
pub fn words_are_read_or_refused()
    ensures { AreWordsOnce }
{
    read_texts_fit();
}

/// A program has one answer to the words of `mean`.
pub fn a_program_answers_once()
    ensures { IsProgramOnce }
{
    plain_depths_agree();
    words_are_read_or_refused();
}
