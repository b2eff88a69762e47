//! The unit of a typed program.
ghost use Rattle.std.specs.Prelude.{◌≡◌, ℕ, Some, None, IfOk, IfErr, OnOk};
ghost use Rattle.lowering.specs.TooMany.{program_over, too_many, types_over};
ghost use Rattle.lowering.specs.Types.{basics, needs};
ghost use Rattle.lowered_ready.specs.Coverage.{AreCovered};
ghost use Rattle.lowered_ready.specs.RuleLaws.{rule_forms};
ghost use Rattle.lowered_units.specs.Fitting.{IsFitting};
ghost use Rattle.lowered_units.specs.Units.{IsTranslated};
ghost use Rattle.unit_build.specs.Labels.{AreLabelsOf};
ghost use Rattle.translate.specs.declared.program.TranslateFault.{TranslateFault};

use crate::ready::ready_unit;
use flow_value::NoMemory;
use if1_valid::Ready;
use line_labels::Labels;
use lowered_functions::lowered_functions;
use std::alloc::Global;
use thiserror::Error;
use tree_sizes::graphs_over;
use typed_tree::Program;
use unit_labels::{TypesFault, labels_of};

/// Why a program has no unit.
#[derive(Clone, Copy, Debug, PartialEq, Eq, Error)]
pub enum TranslateFault {
    /// The unit would have more than 65,535 types, a graph of more than 65,535 nodes, or more than
    /// 4,194,304 graphs or 2,147,483,647 ports; the line is that of the function in which this shows,
    /// from 1.
    #[error("the function in line {line} needs too many types, nodes, graphs or ports")]
    TooMany {
        /// The line.
        line: u32,
    },
    /// Want of memory.
    #[error("no memory")]
    NoMemory,
}

impl From<NoMemory> for TranslateFault {
    ghost from_gives = { λ _ e. e ≡ TranslateFault.NoMemory };

    fn from(_e: NoMemory) -> TranslateFault {
        TranslateFault::NoMemory
    }
}

/// The labels of a program.
fn labels(alloc: Global, program: &Program) -> Result<Labels, TranslateFault>
    requires fits { IsFitting program.now }
    ensures labels { IfOk result (λ labels. AreLabelsOf program.now labels) }
    ensures within { OnOk result (types_over (needs program.now) basics ≡ None) }
    ensures too_many { IfErr result (λ e. (line : ℕ) → e ≡ TranslateFault.TooMany line → types_over (needs program.now) basics ≡ Some line) }
{
    match labels_of(alloc, program) {
        Ok(labels) => Ok(labels),
        Err(TypesFault::TooMany(line)) => Err(TranslateFault::TooMany { line }),
        Err(TypesFault::NoMemory) => Err(TranslateFault::NoMemory),
    }
}

/// Graphs and ports of a program are not too many, and no graph is too large.
fn sizes(program: &Program) -> Result<(), TranslateFault>
    requires fits { IsFitting program.now }
    ensures within { OnOk result (program_over program.now ≡ None) }
    ensures too_many { IfErr result (λ e. (line : ℕ) → e ≡ TranslateFault.TooMany line → program_over program.now ≡ Some line) }
{
    match graphs_over(program) {
        Some(line) => Err(TranslateFault::TooMany { line }),
        None => Ok(()),
    }
}

/// The unit of IF1 graphs of a typed program: valid, and in normal order. Types are looked at first,
/// then graphs, nodes and ports, both before a graph is made (SISAL Language Reference Manual 1.2; IF1
/// manual M-170).
pub fn translate(alloc: Global, program: &Program) -> Result<Ready, TranslateFault>
    requires fits { IsFitting program.now }
    requires covered { AreCovered rule_forms program.now.functions }
    ensures unit { IfOk result (λ r. IsTranslated program.now r) }
    ensures within { IfOk result (λ r. too_many program.now ≡ None) }
    ensures too_many { IfErr result (λ e. (line : ℕ) → e ≡ TranslateFault.TooMany line → too_many program.now ≡ Some line) }
{
    let labels = labels(alloc, program)?;
    sizes(program)?;
    let lowered = lowered_functions(alloc, program)?;
    let ready = ready_unit(alloc, program, lowered, &labels)?;
    Ok(ready)
}
