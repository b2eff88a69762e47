//! The laws.
ghost use Rattle.text_trees.specs.Laws.{PartsLaw, SpelledLaw};

/// The items that the tokens of a text spell are such as a text has.
pub fn what_tokens_spell_is_spelled()
    ensures { SpelledLaw }
{}

/// The parts of what is spelled are spelled.
pub fn parts_of_the_spelled_are_spelled()
    ensures { PartsLaw }
{}
