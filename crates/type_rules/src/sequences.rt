//! Arrays and streams.
ghost use Rattle.std.specs.Prelude.{◌≡◌, ◌&&◌, nat_eq, Some, None, is_some};
ghost use Rattle.type_rules.specs.Sequences.{all_are, selects, updates, named_sort, arrays, empty_sort, empties, streams};

use crate::head::{Container, Outcome, Sort};
use crate::lookups::{array_at, element_in, form_in, is_part};
use crate::made::{outcome_of, there};
use type_table::{INTEGER, Types};
use value_ops::Operation;

/// `a[i]`
pub fn selects(types: &Types, operands: &[usize]) -> Option<Outcome>
    ensures { result ≡ selects types.now operands.now }
{
    let [array, index] = operands else {
        return None;
    };
    if *index != INTEGER {
        return None;
    }
    match array_at(types, *array) {
        Some(element) => Some(there(Operation::Element, element)),
        None => None,
    }
}

/// `a[i: v]`
pub fn updates(types: &Types, operands: &[usize]) -> Option<Outcome>
    ensures { result ≡ updates types.now operands.now }
{
    let [array, index, value] = operands else {
        return None;
    };
    if *index != INTEGER {
        return None;
    }
    if is_part(array_at(types, *array), *value) {
        Some(there(Operation::Update, *array))
    } else {
        None
    }
}

/// Whether all types are this one.
fn all_are(ty: usize, others: &[usize]) -> bool
    ensures { result ≡ all_are ty others.now }
{
    for other in others {
        if *other != ty {
            return false;
        }
    }
    true
}

/// The container with elements of a type, which is the type that is named where one is.
fn named_sort(
    types: &Types,
    container: Container,
    named: Option<usize>,
    element: usize,
) -> Option<Sort>
    ensures { result ≡ named_sort types.now container named element }
{
    let Some(ty) = named else {
        return Some(Sort::Made(form_in(container, element)));
    };
    if is_part(element_in(types, container, ty), element) {
        Some(Sort::There(ty))
    } else {
        None
    }
}

/// The type that is named, where it is a container of this kind.
fn empty_sort(types: &Types, container: Container, named: Option<usize>) -> Option<Sort>
    ensures { result ≡ empty_sort types.now container named }
{
    let ty = named?;
    match element_in(types, container, ty) {
        Some(_) => Some(Sort::There(ty)),
        None => None,
    }
}

/// `array T [lo: v, ..]`
pub fn arrays(types: &Types, named: Option<usize>, operands: &[usize]) -> Option<Outcome>
    ensures { result ≡ arrays types.now named operands.now }
{
    let [lower, first, more @ ..] = operands else {
        return None;
    };
    if *lower != INTEGER {
        return None;
    }
    if !all_are(*first, more) {
        return None;
    }
    outcome_of(
        Operation::Array,
        named_sort(types, Container::Array, named, *first),
    )
}

/// `array T []`
pub fn empties(types: &Types, named: Option<usize>, operands: &[usize]) -> Option<Outcome>
    ensures { result ≡ empties types.now named operands.now }
{
    match operands {
        [] => outcome_of(
            Operation::EmptyArray,
            empty_sort(types, Container::Array, named),
        ),
        _ => None,
    }
}

/// `stream T [v, ..]`
pub fn streams(types: &Types, named: Option<usize>, operands: &[usize]) -> Option<Outcome>
    ensures { result ≡ streams types.now named operands.now }
{
    let [first, more @ ..] = operands else {
        return outcome_of(
            Operation::Stream,
            empty_sort(types, Container::Stream, named),
        );
    };
    if !all_are(*first, more) {
        return None;
    }
    outcome_of(
        Operation::Stream,
        named_sort(types, Container::Stream, named, *first),
    )
}
