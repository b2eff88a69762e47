//! What is so of tokens.
ghost use Rattle.sisal_lex.specs.Spelling.{AreLongest};

/// What is taken at the head of a text as a token is one, and nothing longer at its place is one token.
pub fn tokens_are_longest()
    ensures { AreLongest }
{}
