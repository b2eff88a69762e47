//! The arguments of a call, from words.
ghost use Rattle.std.specs.Prelude.{◌≡◌, ◌+◌, ◌<◌, ℕ, IfOk, IfErr, List, length, get_or};
ghost use Rattle.flow_value.specs.declared.ty.Ty.{Ty};
ghost use Rattle.value_text.specs.Grammar.{reads_value};
ghost use Rattle.value_text.specs.Numbered.{StandsFor, StandForAll};
ghost use Rattle.mean_call.specs.Words.{IsWordRefusal, AreRead, AreRefused, AreMisread, refusal_of};

use crate::fault::{ArgumentFault, Refusal};
use flow_value::{Items, Text, Val};
use std::alloc::Global;
use value_text::{NumberedTypes, ValueFault, read_value_by};

/// The refusal of the word at a place, from 1, for a fault.
fn refusal_of(fault: ValueFault, place: usize) -> Refusal
    ensures { result ≡ refusal_of place fault }
{
    match fault {
        ValueFault::NoMemory => Refusal::NoMemory,
        _ => Refusal::Argument(ArgumentFault::Value {
            argument: place,
            fault,
        }),
    }
}

/// The value of one word, which stands at a place, from 1, at the type of a number.
fn argument<T: NumberedTypes>(
    alloc: Global,
    word: &[u8],
    types: &T,
    number: usize,
    place: usize,
) -> Result<Val, Refusal>
    ensures read { (ty : Ty) → StandsFor (T.seen types.now) number ty → IfOk result (λ v. reads_value word.now ty v) }
    ensures refused { (ty : Ty) → StandsFor (T.seen types.now) number ty → IfErr result (IsWordRefusal word.now ty place) }
{
    match read_value_by(alloc, word, types, number) {
        Ok(value) => Ok(value),
        Err(fault) => Err(refusal_of(fault, place)),
    }
}

fn number_at(numbers: &[usize], place: usize) -> usize
    requires { place < length numbers.now }
    ensures { (other : ℕ) → result ≡ get_or numbers.now place other }
{
    numbers[place]
}

/// The values of as many words as types.
fn read_all<T: NumberedTypes>(
    alloc: Global,
    words: &[Text],
    types: &T,
    numbers: &[usize],
) -> Result<Items, Refusal>
    requires { length words.now ≡ length numbers.now }
    ensures read { (tys : List Ty) → StandForAll (T.seen types.now) numbers.now tys → IfOk result (AreRead words.now tys) }
    ensures refused { (tys : List Ty) → StandForAll (T.seen types.now) numbers.now tys → IfErr result (AreMisread words.now tys) }
{
    let mut values = Items::with_room(alloc, words.len())?;
    for i in 0..words.len() {
        let number = number_at(numbers, i);
        let value = argument(alloc, words[i].as_slice(), types, number, i + 1)?;
        values.add(value)?;
    }
    Ok(values)
}

/// The values of words at the types of parameters, which are given by number. Their count is looked at
/// before any type.
pub fn values_of_words<T: NumberedTypes>(
    alloc: Global,
    words: &[Text],
    types: &T,
    numbers: &[usize],
) -> Result<Items, Refusal>
    ensures read { (tys : List Ty) → StandForAll (T.seen types.now) numbers.now tys → IfOk result (AreRead words.now tys) }
    ensures refused { (tys : List Ty) → StandForAll (T.seen types.now) numbers.now tys → IfErr result (AreRefused words.now tys) }
{
    if words.len() != numbers.len() {
        return Err(Refusal::Argument(ArgumentFault::Count {
            wanted: numbers.len(),
            given: words.len(),
        }));
    }
    read_all(alloc, words, types, numbers)
}
