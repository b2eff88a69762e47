//! Units of texts.
ghost use Rattle.sisal_check.specs.Texts.{TextLaw};

/// The unit of a text is such as `check` asks for.
pub fn units_of_texts_are_texts()
    ensures { TextLaw }
{}
