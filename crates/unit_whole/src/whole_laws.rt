//! The laws of whole code.
ghost use Rattle.unit_whole.specs.Laws.{AreUnitCodesEntered, AreUnitCodesWhole, IsQuickCodeWhole};
ghost use Rattle.unit_whole.specs.Seen.{AreNodesSeen};

/// What a node of a unit's plan writes is seen behind it, by its first output.
pub fn nodes_of_units_are_seen()
    ensures { AreNodesSeen }
{}

/// Code that is made of data in which the plan of a ready unit with sound marks stands, and which tells by
/// the rows what its nodes write, is whole.
pub fn code_of_units_is_whole()
    ensures { AreUnitCodesWhole }
{}

/// Quick code is whole where the other is.
pub fn quick_code_is_whole()
    ensures { IsQuickCodeWhole }
{}

/// So the quick code of a unit can be entered at each function, in a block with as many cells as the plan
/// has for it.
pub fn code_of_units_can_be_entered()
    ensures { AreUnitCodesEntered }
{}
