//! Values of names and constants, and what tests say.
ghost use Rattle.std.specs.Prelude.{◌≡◌, map, IfOk};
ghost use Rattle.flow_value.specs.declared.value.Val.TheVariants as val;
ghost use Rattle.meaning.specs.Words.{value_at, constant_value, failed, test_of, goes_on};

use flow_value::{Cause, Items, NoMemory, Val, array_of, copy, item_at};
use meaning::Test;
use sisal_tree::Constant;
use std::alloc::Global;

/// What a test says that gave these values.
pub fn test_of(values: &[Val]) -> Test
    ensures { result ≡ test_of values.now }
{
    match item_at(values, 0) {
        Some(Val::Bool(true)) => Test::Yes,
        Some(Val::Bool(false)) => Test::No,
        Some(Val::Err(cause)) => Test::Failed(*cause),
        _ => Test::Failed(Cause::Explicit),
    }
}

/// Whether a loop goes on after a test: `until` it holds, or `while` it holds.
pub fn goes_on(is_until: bool, test: Test) -> Test
    ensures { result ≡ goes_on is_until test }
{
    match (is_until, test) {
        (true, Test::Yes) => Test::No,
        (true, Test::No) => Test::Yes,
        _ => test,
    }
}

/// A copy of the value at a place, counted from 0.
pub fn value_at(alloc: Global, values: &[Val], place: usize) -> Result<Val, NoMemory>
    ensures { IfOk result (λ v. v ≡ value_at values.now place) }
{
    match item_at(values, place) {
        Some(v) => copy(alloc, v),
        None => Ok(Val::Err(Cause::Explicit)),
    }
}

/// The same error for each of so many results.
pub fn failed(alloc: Global, results: usize, cause: Cause) -> Result<Items, NoMemory>
    ensures { IfOk result (λ vs. vs ≡ failed results cause) }
{
    let mut values = Items::new(alloc);
    for _ in 0..results {
        values.add(Val::Err(cause))?;
    }
    Ok(values)
}

/// The characters of a text.
fn characters(alloc: Global, text: &[u8]) -> Result<Items, NoMemory>
    ensures { IfOk result (λ vs. vs ≡ map val.Char text.now) }
{
    let mut values = Items::new(alloc);
    for code in text {
        values.add(Val::Char(*code))?;
    }
    Ok(values)
}

/// The value of a constant.
pub fn constant_value(alloc: Global, constant: &Constant) -> Result<Val, NoMemory>
    ensures { IfOk result (λ v. v ≡ constant_value constant.now) }
{
    match constant {
        Constant::Integer(n) => Ok(Val::Int(*n)),
        Constant::Letter(code) => Ok(Val::Char(*code)),
        Constant::Quoted(text) => {
            let items = characters(alloc, text.as_slice())?;
            Ok(array_of(1, items))
        }
        Constant::True => Ok(Val::Bool(true)),
        Constant::False => Ok(Val::Bool(false)),
        Constant::Nil => Ok(Val::Null),
    }
}
