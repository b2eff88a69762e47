//! The laws.
ghost use Rattle.bound_trees.specs.Laws.{BoundLaw, DepthLaw, EachLaw, PartsLaw, TextLaw};

/// Each name of a typed unit of the tokens of a text is bound, each call is that of one of its
/// functions, and each constant is one that a text can spell.
pub fn typed_units_are_bound()
    ensures { BoundLaw }
{}

/// The typed unit of a text is bound.
pub fn typed_texts_are_bound()
    ensures { TextLaw }
{}

/// The results of the functions of a typed unit nest no deeper than the unit.
pub fn typed_units_nest_as_deep_as_their_text()
    ensures { DepthLaw }
{}

/// A bound expression has bound parts.
pub fn a_bound_expression_has_bound_parts()
    ensures { PartsLaw }
{}

/// Bound expressions are bound one by one.
pub fn bound_expressions_are_bound()
    ensures { EachLaw }
{}
