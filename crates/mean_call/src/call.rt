//! The values of a program on words.
ghost use Rattle.std.specs.Prelude.{◌≡◌, ℕ, List, IfOk, IfErr};
ghost use Rattle.flow_value.specs.declared.ty.Ty.{Ty};
ghost use Rattle.flow_value.specs.declared.value.Val.{Val};
ghost use Rattle.typed_tree.specs.declared.program.Program as whole;
ghost use Rattle.mean_call.specs.Calls.{Gives, IsEntry, IsRefused};
ghost use Rattle.mean_call.specs.Words.{AreRead};

use crate::arguments::values_of_words;
use crate::entry::{find_entry, params_of};
use crate::fault::{ArgumentFault, Refusal};
use crate::linking::unlinked;
use crate::table::ProgramTypes;
use flow_value::Items;
use meaning_laws::plain_mean;
use run_words::MeanSet;
use source_meaning::MeanFault;
use std::alloc::Global;
use typed_tree::Program;

/// The values of the entry function on these words.
pub fn evaluate(alloc: Global, program: &Program, set: &MeanSet) -> Result<Items, Refusal>
    ensures values { IfOk result (Gives program.now set.now) }
    ensures refused { IfErr result (IsRefused program.now set.now) }
{
    if let Some(name) = unlinked(alloc, program)? {
        return Err(Refusal::Unlinked(name));
    }
    let Some(function) = find_entry(alloc, program, set.entry.as_slice())? else {
        return Err(Refusal::Argument(ArgumentFault::Entry));
    };
    let types = ProgramTypes {
        table: &program.types,
    };
    let params = params_of(program, function);
    let args = values_of_words(alloc, set.values.as_slice(), &types, params)?;
    match plain_mean(alloc, program, function, args, set.limit) {
        Ok(found) => Ok(found.values),
        Err(MeanFault::TurnLimit) => Err(Refusal::TurnLimit),
        Err(MeanFault::NoMemory) => Err(Refusal::NoMemory),
    }
}

/// Words have one entry with one list of types, and are one list of values of these types.
pub fn one_call()
    ensures entry { (p : whole.Program) (word : List ℕ) (f g : ℕ) (ts us : List Ty) → IsEntry p word f ts → IsEntry p word g us → (f ≡ g) × (ts ≡ us) }
    ensures arguments { (words : List (List ℕ)) (ts : List Ty) (vs us : List Val) → AreRead words ts vs → AreRead words ts us → vs ≡ us }
{}
