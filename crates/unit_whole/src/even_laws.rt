//! The laws of how long what steps name is.
ghost use Rattle.unit_whole.specs.Blocks.{DoPlacesStandInBlocks};
ghost use Rattle.unit_whole.specs.Even.{AreLinesEven};
ghost use Rattle.unit_whole.specs.Units.{AreUnitPlansEven};

/// What is made of an even plan is even.
pub fn lines_of_even_plans_are_even()
    ensures { AreLinesEven }
{}

/// Each place of code that is made of a right plan stands in the block of a function, and its step stays
/// inside.
pub fn places_stand_in_blocks()
    ensures { DoPlacesStandInBlocks }
{}

/// The plan of a ready unit is even.
pub fn plans_of_units_are_even()
    ensures { AreUnitPlansEven }
{}
