//! The texts of a program's unit.
ghost use Rattle.std.specs.Prelude.{◌≡◌, ◌++◌, IfOk, IfErr};
ghost use Rattle.if1_graph.specs.Lines.{if1_text};
ghost use Rattle.lowering_meaning.specs.Coverage.{AreCovered};
ghost use Rattle.translate.specs.Laws.{rule_forms};
ghost use Rattle.lowered_units.specs.Fitting.{IsFitting};
ghost use Rattle.unit_drawing.specs.Notes.{note_lines};
ghost use Rattle.compile_call.specs.Calls.{IsMarked, IsRefused, IsTextBy, Prints};

use code_listing::{listing, unit_code};
use flow_value::{NoMemory, Text};
use if1_write::write_if1;
use mark_units::{Marked, mark};
use run_words::CompileSet;
use std::alloc::Global;
use translate::{TranslateFault, translate};
use typed_tree::Program;
use unit_drawing::{add_notes, drawing};

/// The unit of graphs of a program with the marks that are made, which is ready and has sound marks.
/// Refused as `compile` refuses the program.
pub fn marked(alloc: Global, program: &Program) -> Result<Marked, TranslateFault>
    requires fits { IsFitting program.now }
    requires covered { AreCovered rule_forms program.now.functions }
    ensures marked { IfOk result (IsMarked program.now) }
    ensures refused { IfErr result (IsRefused program.now) }
{
    let ready = translate(alloc, program)?;
    let marked = mark(alloc, ready)?;
    Ok(marked)
}

/// The canonical text of a marked unit.
fn compiled(alloc: Global, marked: &Marked) -> Result<Text, NoMemory>
    ensures { IfOk result (λ text. text ≡ if1_text marked.now.sound) }
{
    write_if1(alloc, marked.sound.unit())
}

/// The canonical text of a marked unit, and behind it why edges that may take don't.
fn explained(alloc: Global, marked: &Marked) -> Result<Text, NoMemory>
    ensures { IfOk result (λ text. text ≡ if1_text marked.now.sound ++ note_lines marked.now.notes) }
{
    let mut text = compiled(alloc, marked)?;
    add_notes(marked.notes.as_slice(), &mut text)?;
    Ok(text)
}

/// The code of a marked unit, listed.
fn listed(alloc: Global, marked: &Marked) -> Result<Text, NoMemory> {
    let code = unit_code(alloc, &marked.sound)?;
    listing(alloc, marked.sound.unit(), &code)
}

/// What is printed of a marked unit.
fn text_of(alloc: Global, marked: &Marked, set: &CompileSet) -> Result<Text, NoMemory>
    ensures { IfOk result (IsTextBy set.now.dot set.now.why set.now.code marked.now) }
{
    if set.dot {
        drawing(alloc, marked.sound.unit())
    } else if set.why {
        explained(alloc, marked)
    } else if set.code {
        listed(alloc, marked)
    } else {
        compiled(alloc, marked)
    }
}

/// What `compile` prints of a program: the canonical text of its unit of graphs with the marks that are
/// made (IF1 manual M-170), or with `dot` a drawing of it, or with `code` a listing of the code that runs
/// it, or with `why` behind the text a comment line for each edge that may take and does not. Refused where types, graphs or ports would be too large or
/// too many, with the line of the function in which this shows.
pub fn compile(alloc: Global, program: &Program, set: &CompileSet) -> Result<Text, TranslateFault>
    requires fits { IsFitting program.now }
    requires covered { AreCovered rule_forms program.now.functions }
    ensures printed { IfOk result (Prints program.now set.now) }
    ensures refused { IfErr result (IsRefused program.now) }
{
    let marked = marked(alloc, program)?;
    let text = text_of(alloc, &marked, set)?;
    Ok(text)
}
