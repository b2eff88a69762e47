//! The laws of typing rules and rows.
ghost use Rattle.fitting_units.specs.Laws.{AreCallsRows, AreClausesFolds, AreConversionsRows, AreOperatorsRows, ArePrefixesRows, UnitsFit};

/// Operands that a typing rule allows are those of a row of the operation that stands in the typed
/// tree, and values that a clause allows are folded by what stands there.
pub fn typing_rules_give_rows()
    ensures prefixes { ArePrefixesRows }
    ensures operators { AreOperatorsRows }
    ensures conversions { AreConversionsRows }
    ensures calls { AreCallsRows }
    ensures clauses { AreClausesFolds }
{}

/// The program of a typed unit is a fitting tree, where its names are spelled once each, no union
/// has a tag twice, and what it writes is such as a text can write.
pub fn typed_units_fit()
    ensures { UnitsFit }
{}
