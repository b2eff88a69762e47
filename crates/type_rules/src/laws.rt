//! What the typing rules on numbers of types say of the types.
ghost use Rattle.type_rules.specs.Typed.{FormsByType, ClausesByType};

/// What a form makes by the numbers of types is what the typing rules say of the types; where it
/// makes nothing, they have no type for it.
pub fn forms_by_type()
    ensures { FormsByType }
{}

/// The same of a clause of a loop.
pub fn clauses_by_type()
    ensures { ClausesByType }
{}
