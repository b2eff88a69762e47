//! The labels of a program.
ghost use Rattle.std.specs.Prelude.{◌≡◌, Some, None, IfOk, IfErr, OnOk};
ghost use Rattle.lowering.specs.Types.{basics, needs};
ghost use Rattle.lowering.specs.TooMany.{types_over};
ghost use Rattle.lowered_units.specs.Fitting.{IsFitting};
ghost use Rattle.unit_build.specs.Labels.{AreLabelsOf};
ghost use Rattle.unit_labels.specs.Faults.{AtLine};

use crate::faults::TypesFault;
use crate::functions::{enter_bodies, enter_headers, new_labels};
use line_labels::Labels;
use line_types::{faults_are_traced, lines_are_traced, tables_are_traced};
use std::alloc::Global;
use typed_tree::Program;

/// The labels of whatever the lines of a program's graphs carry and of the types of its functions, in
/// the table of types of its unit, which has at most 65,535 entries (IF1 manual M-170, type table).
/// Else the line of the first header or body, headers first, that needs one entry more.
pub fn labels_of(alloc: Global, program: &Program) -> Result<Labels, TypesFault>
    requires fits { IsFitting program.now }
    ensures labels { IfOk result (λ labels. AreLabelsOf program.now labels) }
    ensures within { OnOk result (types_over (needs program.now) basics ≡ None) }
    ensures too_many { IfErr result (AtLine (λ line. types_over (needs program.now) basics ≡ Some line)) }
{
    tables_are_traced();
    faults_are_traced();
    lines_are_traced();
    let Ok(mut labels) = new_labels(alloc) else {
        return Err(TypesFault::NoMemory);
    };
    match enter_headers(&mut labels, program) {
        Ok(()) => (),
        Err(fault) => return Err(fault),
    }
    match enter_bodies(alloc, &mut labels, program) {
        Ok(()) => Ok(labels),
        Err(fault) => Err(fault),
    }
}
