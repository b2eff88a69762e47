//! Functions whose bodies stand in other texts.
ghost use Rattle.std.specs.Prelude.{◌≡◌, IfOk, option_map, slice_get, unwrap_or, []};
ghost use Rattle.std.specs.List.{find};
ghost use Rattle.mean_call.specs.Calls.{is_elsewhere, unlinked};

use flow_value::{Name, NoMemory, Seq, item_at};
use std::alloc::Global;
use typed_tree::{Function, Program};

fn is_elsewhere(function: &Function) -> bool
    ensures { result ≡ is_elsewhere function.now }
{
    function.body.is_none()
}

/// The number of the name of the first function whose body stands in another text.
fn first_elsewhere(functions: &[Function]) -> Option<u32>
    ensures { result ≡ option_map (λ f. f.name) (find is_elsewhere functions.now) }
{
    for function in functions {
        if is_elsewhere(function) {
            return Some(function.name);
        }
    }
    None
}

/// The spelling of a name, which is empty where there is no such number.
fn spelling(alloc: Global, names: &[Name], number: u32) -> Result<Name, NoMemory>
    ensures { IfOk result (λ name. name ≡ unwrap_or (slice_get names.now number) []) }
{
    match item_at(names, number as usize) {
        Some(name) => Seq::from_slice(alloc, name.as_slice()),
        None => Ok(Seq::new(alloc)),
    }
}

/// The name of the first function whose body stands in another text.
pub fn unlinked(alloc: Global, program: &Program) -> Result<Option<Name>, NoMemory>
    ensures { IfOk result (λ o. o ≡ unlinked program.now) }
{
    match first_elsewhere(program.functions.as_slice()) {
        Some(number) => Ok(Some(spelling(alloc, program.names.as_slice(), number)?)),
        None => Ok(None),
    }
}
