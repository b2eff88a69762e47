//! The functions of a program, one after another.
ghost use Rattle.std.specs.Prelude.{ℕ, ◌≡◌, ◌<◌, ◌≤◌, ◌∷◌, ◌^◌, [], length, slice_get, Some, None, OnOk, IfOk, IfErr};
ghost use Rattle.typed_tree.specs.declared.program.Program.{Program};
ghost use Rattle.lowering.specs.declared.feed.Carried.TheVariants.{Callee};
ghost use Rattle.lowering.specs.Types.{basics, header_need, with_types};
ghost use Rattle.lowering.specs.TooMany.{most_types};
ghost use Rattle.line_types.specs.Traces.{body_need, function_lines, lines_of};
ghost use Rattle.line_labels.specs.Needs.{put, added};
ghost use Rattle.line_labels.specs.Labels.{AreKept};
ghost use Rattle.lowered_units.specs.Fitting.{IsFitting};
ghost use Rattle.unit_labels.specs.Faults.{AtLine};
ghost use Rattle.unit_labels.specs.Entered.{AreEntered, callees, with_bodies, bodies_over, with_all, all_over};

use crate::faults::TypesFault;
use flow_value::NoMemory;
use line_labels::Labels;
use line_walk::add_function;
use lowering::Carried;
use std::alloc::Global;
use type_labels::LabelFault;
use typed_tree::{Function, Program};

/// The basic types alone.
#[tactic(auto, using(crate::proofs::Entering::start_entered))]
pub fn new_labels(alloc: Global) -> Result<Labels, NoMemory>
    ensures needs { IfOk result (λ labels. labels.needs ≡ []) }
    ensures table { IfOk result (λ labels. labels.table ≡ basics) }
    ensures entered { IfOk result (λ labels. (p : Program) → AreEntered p labels) }
{
    match Labels::new(alloc) {
        Ok(labels) => Ok(labels),
        Err(_) => Err(NoMemory),
    }
}

/// Enters whatever was met in the function of this line and has no label yet.
fn enter(labels: &mut Labels, program: &Program, line: u32) -> Result<(), TypesFault>
    requires { AreKept program.now.types program.now.names program.now.functions labels.old }
    ensures entered { OnOk result (AreEntered program.now labels.new) }
    ensures needs { OnOk result (labels.new.needs ≡ labels.old.needs) }
    ensures too_many { IfErr result (AtLine (λ at. (at ≡ line) × (most_types < length (with_types program.now.types program.now.names program.now.functions labels.old.needs basics)))) }
{
    let names = program.names.as_slice();
    let functions = program.functions.as_slice();
    match labels.enter(&program.types, names, functions) {
        Ok(()) => {
            let _ = labels.table.count();
            Ok(())
        }
        Err(LabelFault::TooMany) => Err(TypesFault::TooMany(line)),
        Err(LabelFault::NoMemory) => Err(TypesFault::NoMemory),
    }
}

/// Enters the type of the function of a place.
fn enter_header(
    labels: &mut Labels,
    program: &Program,
    place: u32,
    function: &Function,
) -> Result<(), TypesFault>
    requires entered { AreEntered program.now labels.old }
    requires there { slice_get program.now.functions place ≡ Some function.now }
    ensures entered { OnOk result (AreEntered program.now labels.new) }
    ensures needs { OnOk result (labels.new.needs ≡ put labels.old.needs (Callee place)) }
    ensures table { OnOk result (labels.new.table ≡ (header_need program.now function.now).enters labels.old.table) }
    ensures too_many { IfErr result (AtLine (λ at. (at ≡ function.now.line) × (most_types < length ((header_need program.now function.now).enters labels.old.table)))) }
{
    match labels.needs.add(Carried::Callee(place)) {
        Ok(()) => enter(labels, program, function.line),
        Err(NoMemory) => Err(TypesFault::NoMemory),
    }
}

/// Enters what the lines of a function carry.
fn enter_body(
    alloc: Global,
    labels: &mut Labels,
    program: &Program,
    function: &Function,
) -> Result<(), TypesFault>
    requires entered { AreEntered program.now labels.old }
    ensures entered { OnOk result (AreEntered program.now labels.new) }
    ensures needs { OnOk result (labels.new.needs ≡ added labels.old.needs (function_lines program.now.types function.now)) }
    ensures table { OnOk result (labels.new.table ≡ (body_need program.now function.now).enters labels.old.table) }
    ensures too_many { IfErr result (AtLine (λ at. (at ≡ function.now.line) × (most_types < length ((body_need program.now function.now).enters labels.old.table)))) }
{
    match add_function(alloc, &mut labels.needs, &program.types, function) {
        Ok(()) => enter(labels, program, function.line),
        Err(NoMemory) => Err(TypesFault::NoMemory),
    }
}

/// The number of the name of a function.
fn name_of(function: &Function) -> u32
    ensures is { result ≡ function.now.name }
    ensures small { function.now.name < 2 ^ 32 }
{
    function.name
}

/// Enters the types of all functions.
#[tactic(auto, unfolding(crate::specs::Entered::with_bodies, crate::specs::Entered::bodies_over, crate::specs::Entered::with_all, crate::specs::Entered::all_over))]
pub fn enter_headers(labels: &mut Labels, program: &Program) -> Result<(), TypesFault>
    requires fits { IsFitting program.now }
    requires entered { AreEntered program.now labels.old }
    ensures entered { OnOk result (AreEntered program.now labels.new) }
    ensures needs { OnOk result (labels.new.needs ≡ added labels.old.needs (callees 0 program.now.functions)) }
    ensures table { OnOk result (with_bodies program.now labels.new.table ≡ with_all program.now labels.old.table) }
    ensures within { OnOk result (bodies_over program.now labels.new.table ≡ all_over program.now labels.old.table) }
    ensures too_many { IfErr result (AtLine (λ line. all_over program.now labels.old.table ≡ Some line)) }
{
    let functions = program.functions.as_slice();
    for (place, function) in functions.iter().enumerate() {
        let _ = name_of(function);
        match enter_header(labels, program, place as u32, function) {
            Ok(()) => (),
            Err(fault) => return Err(fault),
        }
    }
    Ok(())
}

/// Enters what the lines of all functions carry.
#[tactic(auto, unfolding(crate::specs::Entered::with_bodies, crate::specs::Entered::bodies_over))]
pub fn enter_bodies(alloc: Global, labels: &mut Labels, program: &Program) -> Result<(), TypesFault>
    requires entered { AreEntered program.now labels.old }
    ensures entered { OnOk result (AreEntered program.now labels.new) }
    ensures needs { OnOk result (labels.new.needs ≡ added labels.old.needs (lines_of program.now.types program.now.functions)) }
    ensures table { OnOk result (labels.new.table ≡ with_bodies program.now labels.old.table) }
    ensures within { OnOk result (bodies_over program.now labels.old.table ≡ None) }
    ensures too_many { IfErr result (AtLine (λ line. bodies_over program.now labels.old.table ≡ Some line)) }
{
    let functions = program.functions.as_slice();
    for function in functions {
        match enter_body(alloc, labels, program, function) {
            Ok(()) => (),
            Err(fault) => return Err(fault),
        }
    }
    Ok(())
}
