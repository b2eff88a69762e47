//! The laws of values and types.
ghost use Rattle.typed_values.specs.Alike.{DoNamesAlikeBreak};
ghost use Rattle.typed_values.specs.Laws.{AreCallsTyped, AreExpressionsTyped, AreRunsRight, AreUnitsTyped, HasNoRow, HasNoTree};

/// On values of the types of the names in force, an expression gives values of its types.
pub fn expressions_give_values_of_their_types()
    ensures { AreExpressionsTyped }
{}

/// On values of the types of its parameters, a call gives values of the types of its results.
pub fn calls_give_values_of_their_types()
    ensures { AreCallsTyped }
{}

/// On values of the types of the names in force, each operation meets operands that it takes, or
/// errors, each test a truth value, each `tagcase` a union that has an arm, and so on.
pub fn runs_meet_what_they_take()
    ensures { AreRunsRight }
{}

/// On arguments of the types of its parameters, a function of a typed unit gives values of the
/// types of its results.
pub fn functions_of_typed_units_give_values_of_their_types()
    ensures { AreUnitsTyped }
{}

/// An example: `1 + true` has no fitting tree, and no row of the sum takes its operands.
pub fn one_plus_true_does_not_fit()
    ensures no_tree { HasNoTree }
    ensures no_row { HasNoRow }
{}

/// An example: where two names are spelled alike, the typing rules call an expression an integer whose
/// value is a truth value.
pub fn names_spelled_alike_break_types()
    ensures { DoNamesAlikeBreak }
{}
