//! What the unit of a program is made from.
ghost use Rattle.unit_build.specs.Labels.{AreLabelsOf};

use line_labels::Labels;
use std::alloc::Global;
use typed_tree::Program;

/// A program, and the labels of its types.
#[derive(Clone, Copy)]
pub struct Maker<'a> {
    pub alloc: Global,
    pub program: &'a Program,
    pub labels: &'a Labels,
    ghost labelled: { AreLabelsOf program.now labels.now },
}
