//! What the test decides.
ghost use Rattle.if1_fits.specs.Laws.{FitsDecides};

/// The test is true exactly where the type of the number is one that the table wants.
pub fn fits_decides()
    ensures { FitsDecides }
{}
