//! From the bytes of a text to its typed program.
ghost use Rattle.std.specs.Prelude.{ℕ, List, IfOk, IfErr};
ghost use Rattle.text_ready.specs.Coverage.{AreCovered};
ghost use Rattle.text_ready.specs.RuleLaws.{rule_forms};
ghost use Rattle.lowered_units.specs.Fitting.{IsFitting};
ghost use Rattle.sisal_check.specs.Texts.{IsText};
ghost use Rattle.sisal_top.specs.Outputs.{HasProgram};
ghost use Rattle.sisal_top.specs.Program.{Fits, IsUnitOf};
ghost use Rattle.sisal_top.specs.Refusals.{IsCause, IsNoProgram};

use crate::status::Status;
use sisal_check::{check, units_of_texts_are_texts};
use sisal_lex::lex;
use sisal_parse::parse;
use sisal_tree::Unit;
use std::alloc::Global;
use text_ready::{programs_of_texts_are_covered, programs_of_texts_fit};
use typed_tree::Program;

/// The unit that a text is.
fn unit_of(alloc: Global, text: &[u8]) -> Result<Unit, Status>
    requires { Fits text.now }
    ensures unit { IfOk result (IsUnitOf text.now) }
    ensures refused { IfErr result (IsCause text.now) }
{
    let tokens = lex(alloc, text)?;
    let unit = parse(alloc, tokens)?;
    Ok(unit)
}

/// The typed program of the unit that a text is.
pub fn typed(alloc: Global, text: &[u8]) -> Result<Program, Status>
    requires { Fits text.now }
    ensures program { IfOk result (HasProgram text.now) }
    ensures fits { IfOk result IsFitting }
    ensures covered { IfOk result (λ program. AreCovered rule_forms program.functions) }
    ensures refused { IfErr result (IsNoProgram text.now) }
{
    let unit = unit_of(alloc, text)?;
    units_of_texts_are_texts();
    let program = program_of(alloc, unit)?;
    Ok(program)
}

/// The typed program of a unit.
fn program_of(alloc: Global, unit: Unit) -> Result<Program, Status>
    requires { IsText unit }
    ensures program { IfOk result (λ program. (bytes : List ℕ) → IsUnitOf bytes unit → HasProgram bytes program) }
    ensures fits { IfOk result (λ program. (bytes : List ℕ) → IsUnitOf bytes unit → IsFitting program) }
    ensures covered { IfOk result (λ program. (bytes : List ℕ) → IsUnitOf bytes unit → AreCovered rule_forms program.functions) }
    ensures refused { IfErr result (λ s. (bytes : List ℕ) → IsUnitOf bytes unit → IsNoProgram bytes s) }
{
    programs_of_texts_fit();
    programs_of_texts_are_covered();
    let program = check(alloc, unit)?;
    Ok(program)
}
