//! The unit of a program is ready.
ghost use Rattle.std.specs.Prelude.{◌≡◌, None, IfOk};
ghost use Rattle.lowering.specs.Programs.{functions_lowered};
ghost use Rattle.lowering.specs.TooMany.{too_many};
ghost use Rattle.lowered_ready.specs.Coverage.{AreCovered};
ghost use Rattle.lowered_ready.specs.RuleLaws.{rule_forms};
ghost use Rattle.lowered_units.specs.Fitting.{IsFitting};
ghost use Rattle.lowered_units.specs.Units.{IsTranslated};
ghost use Rattle.unit_build.specs.Labels.{AreLabelsOf};

use flow_value::{NoMemory, Seq};
use if1_valid::{Ready, numbered};
use line_labels::Labels;
use lowered_ready::translated_units_are_ready;
use lowered_units::translated_units_are_normal;
use lowering::Lowered;
use std::alloc::Global;
use typed_tree::Program;
use unit_build::unit_of;

/// The unit of a program within the limits, of its lowered functions and its labels. It is ready by a law
/// where the program's loops are such as texts have, so nothing of it is checked.
pub fn ready_unit(
    alloc: Global,
    program: &Program,
    lowered: Seq<Lowered>,
    labels: &Labels,
) -> Result<Ready, NoMemory>
    requires fits { IsFitting program.now }
    requires covered { AreCovered rule_forms program.now.functions }
    requires within { too_many program.now ≡ None }
    requires functions { lowered ≡ functions_lowered program.now }
    requires labels { AreLabelsOf program.now labels.now }
    ensures { IfOk result (λ ready. IsTranslated program.now ready) }
{
    let unit = unit_of(alloc, program, lowered, labels)?;
    translated_units_are_ready();
    translated_units_are_normal();
    numbered(alloc, unit)
}
