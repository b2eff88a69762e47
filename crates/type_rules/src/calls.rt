//! Calls that are built in.
ghost use Rattle.std.specs.Prelude.{◌≡◌, ◌&&◌, nat_eq, Some, None, is_some};
ghost use Rattle.type_rules.specs.Calls.{integer_pair, integer, filled, grown, shrunk, based, adjusted, measured, firsts, gives_of, called};

use crate::head::{Container, Outcome, Sort};
use crate::lookups::{element_in, is_part};
use crate::made::{outcome_of, sort_if};
use type_table::{BOOLEAN, Form, INTEGER, Types};
use typed_tree::BuiltIn;

/// Of two integers: an integer.
fn integer_pair(operands: &[usize]) -> Option<Sort>
    ensures { result ≡ integer_pair operands.now }
{
    match operands {
        [a, b] => sort_if(*a == INTEGER && *b == INTEGER, INTEGER),
        _ => None,
    }
}

/// Of an integer: an integer.
fn integer(operands: &[usize]) -> Option<Sort>
    ensures { result ≡ integer operands.now }
{
    match operands {
        [a] => sort_if(*a == INTEGER, INTEGER),
        _ => None,
    }
}

/// Of two bounds and a value: an array.
fn filled(operands: &[usize]) -> Option<Sort>
    ensures { result ≡ filled operands.now }
{
    let [low, high, value] = operands else {
        return None;
    };
    if *low == INTEGER && *high == INTEGER {
        Some(Sort::Made(Form::Array(*value)))
    } else {
        None
    }
}

/// Of a container and a value for it: the container.
fn grown(types: &Types, container: Container, operands: &[usize]) -> Option<Sort>
    ensures { result ≡ grown types.now container operands.now }
{
    match operands {
        [a, v] => sort_if(is_part(element_in(types, container, *a), *v), *a),
        _ => None,
    }
}

/// Of a container alone: the container.
fn shrunk(types: &Types, container: Container, operands: &[usize]) -> Option<Sort>
    ensures { result ≡ shrunk types.now container operands.now }
{
    match operands {
        [a] => sort_if(element_in(types, container, *a).is_some(), *a),
        _ => None,
    }
}

/// Of an array and a bound: the array.
fn based(types: &Types, operands: &[usize]) -> Option<Sort>
    ensures { result ≡ based types.now operands.now }
{
    match operands {
        [a, low] => sort_if(
            element_in(types, Container::Array, *a).is_some() && *low == INTEGER,
            *a,
        ),
        _ => None,
    }
}

/// Of an array and two bounds: the array.
fn adjusted(types: &Types, operands: &[usize]) -> Option<Sort>
    ensures { result ≡ adjusted types.now operands.now }
{
    match operands {
        [a, low, high] => sort_if(
            element_in(types, Container::Array, *a).is_some()
                && *low == INTEGER
                && *high == INTEGER,
            *a,
        ),
        _ => None,
    }
}

/// Of a container alone: a basic type.
fn measured(types: &Types, container: Container, ty: usize, operands: &[usize]) -> Option<Sort>
    ensures { result ≡ measured types.now container ty operands.now }
{
    match operands {
        [a] => sort_if(element_in(types, container, *a).is_some(), ty),
        _ => None,
    }
}

/// Of a stream alone: the type of its elements.
fn firsts(types: &Types, operands: &[usize]) -> Option<Sort>
    ensures { result ≡ firsts types.now operands.now }
{
    let [stream] = operands else {
        return None;
    };
    match element_in(types, Container::Stream, *stream) {
        Some(element) => Some(Sort::There(element)),
        None => None,
    }
}

fn gives_of(types: &Types, call: BuiltIn, operands: &[usize]) -> Option<Sort>
    ensures { result ≡ gives_of types.now call operands.now }
{
    match call {
        BuiltIn::Mod | BuiltIn::Max | BuiltIn::Min => integer_pair(operands),
        BuiltIn::Abs => integer(operands),
        BuiltIn::ArrayFill => filled(operands),
        BuiltIn::ArrayAddHigh | BuiltIn::ArrayAddLow => grown(types, Container::Array, operands),
        BuiltIn::ArrayRemoveHigh | BuiltIn::ArrayRemoveLow => {
            shrunk(types, Container::Array, operands)
        }
        BuiltIn::ArraySetLow => based(types, operands),
        BuiltIn::ArrayAdjust => adjusted(types, operands),
        BuiltIn::ArrayLimitLow | BuiltIn::ArrayLimitHigh | BuiltIn::ArraySize => {
            measured(types, Container::Array, INTEGER, operands)
        }
        BuiltIn::StreamAppend => grown(types, Container::Stream, operands),
        BuiltIn::StreamSize => measured(types, Container::Stream, INTEGER, operands),
        BuiltIn::StreamEmpty => measured(types, Container::Stream, BOOLEAN, operands),
        BuiltIn::StreamFirst => firsts(types, operands),
        BuiltIn::StreamRest => shrunk(types, Container::Stream, operands),
    }
}

/// A call that is built in.
pub fn called(types: &Types, call: BuiltIn, operands: &[usize]) -> Option<Outcome>
    ensures { result ≡ called types.now call operands.now }
{
    outcome_of(call.operation(), gives_of(types, call, operands))
}
