//! The law of sizes.
ghost use Rattle.lowered_sizes.specs.Laws.{AreSizesExact};

/// Sizes tell, before anything is made, in which function a program's graphs or ports are too large
/// or too many.
pub fn sizes_are_exact()
    ensures { AreSizesExact }
{}
