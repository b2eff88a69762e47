//! What the labels of a type table stand for, by number.
ghost use Rattle.std.specs.List.Sorted.{IsStrictlyIncreasing};
ghost use Rattle.if1_types.specs.Skips.{AreCountedBy, AreFurther};

use crate::shapes::Shapes;
use flow_value::Numbers;

/// What the labels of a type table stand for, by number: a value, a multiple or a function.
#[derive(Drop)]
pub struct Sorts {
    /// The labels, rising.
    pub labels: Numbers,
    /// The number of each; 0 stands for nothing.
    pub numbers: Numbers,
    /// What the numbers stand for.
    pub shapes: Shapes,
    /// Beside the number of each list that of an end of it, so that a member is found in few steps.
    pub skips: Numbers,
    ghost rising: { IsStrictlyIncreasing labels },
    ghost counted: { AreCountedBy shapes },
    ghost further: { AreFurther shapes skips },
}
