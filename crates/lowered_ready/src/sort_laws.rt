//! The laws.
ghost use Rattle.lowered_ready.specs.SortLaws.{AreReadBack, AreTypesOfNumbers};

/// In the unit of a fitting program the label of what a wire carries, of a called function and of a
/// header stands for its type, without the names of fields and tags.
pub fn types_are_read_back()
    ensures { AreReadBack }
{}

/// A number of a type stands for it, without the names of its fields and tags.
pub fn numbers_have_their_types()
    ensures { AreTypesOfNumbers }
{}
