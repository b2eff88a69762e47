//! The laws.
ghost use Rattle.word_values.specs.Laws.{AreWordsOfTypes, IsReadOfType};

/// What a text spells at a type belongs to the type.
pub fn what_is_read_is_of_its_type()
    ensures { IsReadOfType }
{}

/// Words that are values of types, each at the type of its place, are values that belong to these types.
pub fn words_are_values_of_their_types()
    ensures { AreWordsOfTypes }
{}
