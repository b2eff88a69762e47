//! The laws of fuller cells.
ghost use Rattle.run_fuller.specs.Fuller.{DoTheSame};

/// On cells that have at least what those of the machine of the laws have, a step that this machine
/// can do leads to the same outcome, with cells that have at least what its cells have.
pub fn fuller_cells_do_the_same()
    ensures { DoTheSame }
{}
