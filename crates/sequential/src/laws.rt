//! The law of steps.
ghost use Rattle.sequential.specs.Agrees.{AreForAll};

/// A step that is that of the laws on the cells of the machine is so for all cells of the machine of
/// the laws with which these agree.
pub fn steps_are_for_all()
    ensures { AreForAll }
{}
