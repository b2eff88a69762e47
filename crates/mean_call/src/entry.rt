//! The entry of a program.
ghost use Rattle.std.specs.Prelude.{◌≡◌, IfOk};
ghost use Rattle.mean_call.specs.Calls.{params_of, IsEntryIf};

use crate::known::{are_known, known_types};
use flow_value::{NoMemory, item_at};
use std::alloc::Global;
use typed_tree::Program;

/// The numbers of the types of a function's parameters.
pub fn params_of(program: &Program, function: u32) -> &[usize]
    ensures { result.now ≡ params_of program.now function }
{
    match item_at(program.functions.as_slice(), function as usize) {
        Some(function) => function.params.as_slice(),
        None => &[],
    }
}

/// The first function after `define` that has the word as its name, whose capital letters count as
/// small ones, if the types of its parameters are there. No type is written out.
pub fn find_entry(alloc: Global, program: &Program, word: &[u8]) -> Result<Option<u32>, NoMemory>
    ensures { IfOk result (IsEntryIf program.now word.now) }
{
    let Some(function) = program.entry(word) else {
        return Ok(None);
    };
    program.types.holds();
    let known = known_types(alloc, &program.types, program.names.len())?;
    if are_known(known.as_slice(), params_of(program, function)) {
        Ok(Some(function))
    } else {
        Ok(None)
    }
}
