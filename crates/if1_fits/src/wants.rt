//! Whether a type is one that the table of nodes wants.
ghost use Rattle.std.specs.Prelude.{◌≡◌, ℕ, Option};
ghost use Rattle.if1_graph.specs.declared.op.Reducer as reducers;
ghost use Rattle.if1_types.specs.declared.forms.TyForm.TheVariants as TyForm;
ghost use Rattle.if1_fits.specs.Views as views;
ghost use Rattle.std.specs.List.Sorted.{IsStrictlyIncreasing};
ghost use Rattle.if1_types.specs.Forms.{sort_form_at};
ghost use Rattle.if1_fits.specs.Views.{carried_at as at_port, AreUp};
ghost use Rattle.if1_fits.specs.Tests as spec;
ghost use Rattle.if1_fits.specs.Tests.{IsAlone, IsBeside};

use crate::kind::Kind;
use crate::views::{
    are_same, arguments_of, array_of, carried_at, fields_of, kind_or, listed_at, many_of,
    results_of, sequence_of, value_of,
};
use if1_graph::{Edge, Reducer, Want};
use if1_types::{ListForm, SortForm, Sorts, TyForm};

/// The elements of an array, a stream or a multiple.
fn elements_of(sorts: &Sorts, number: u32) -> Option<u32>
    ensures { result ≡ spec.elements_in sorts.now.shapes (sort_form_at sorts.now.shapes number) }
{
    match sorts.sort(number) {
        SortForm::Value(ty) => sequence_of(sorts, ty),
        SortForm::Multiple(ty) => Some(ty),
        _ => None,
    }
}

fn is_reducible(named: Option<Reducer>, kind: Kind) -> bool
    ensures { result ≡ spec.is_reducible named kind }
{
    match named {
        Some(Reducer::Catenate) => kind == Kind::Array || kind == Kind::Stream,
        Some(_) => kind == Kind::Integer,
        None => false,
    }
}

fn fields_fit(sorts: &Sorts, edges: &[Edge], fields: u32) -> bool
    requires rising { IsStrictlyIncreasing sorts.now.labels }
    requires up { AreUp edges.now }
    ensures { result ≡ spec.is_built sorts.now.shapes (at_port sorts.now.labels sorts.now.numbers edges.now) (TyForm.Record fields) }
{
    let count = sorts.length(fields);
    let mut rest = fields;
    let mut left = count;
    while left > 0 {
        let ListForm::Member(ty, others) = sorts.list(rest) else {
            return false;
        };
        let carried = value_of(sorts, carried_at(sorts, edges, count - left + 1));
        if !are_same(Some(ty), carried) {
            return false;
        }
        rest = others;
        left -= 1;
    }
    true
}

/// Whether the tag at a port has the type of what leads into the port.
fn tag_fits(sorts: &Sorts, edges: &[Edge], tags: u32, port: u32) -> bool
    requires rising { IsStrictlyIncreasing sorts.now.labels }
    requires up { AreUp edges.now }
    ensures { result ≡ spec.tag_fits sorts.now.shapes (at_port sorts.now.labels sorts.now.numbers edges.now) tags port }
{
    let ty = listed_at(sorts, Some(tags), port);
    are_same(ty, value_of(sorts, carried_at(sorts, edges, port)))
}

/// A tag into whose port no edge leads has no type there, so edges are looked at and not tags.
fn some_tag_fits(sorts: &Sorts, edges: &[Edge], tags: u32) -> bool
    requires rising { IsStrictlyIncreasing sorts.now.labels }
    requires up { AreUp edges.now }
    ensures { result ≡ spec.is_built sorts.now.shapes (at_port sorts.now.labels sorts.now.numbers edges.now) (TyForm.Union tags) }
{
    for edge in edges {
        if tag_fits(sorts, edges, tags, edge.port) {
            return true;
        }
    }
    false
}

fn is_built(sorts: &Sorts, edges: &[Edge], form: TyForm) -> bool
    requires rising { IsStrictlyIncreasing sorts.now.labels }
    requires up { AreUp edges.now }
    ensures { result ≡ spec.is_built sorts.now.shapes (at_port sorts.now.labels sorts.now.numbers edges.now) form }
{
    match form {
        TyForm::Record(fields) => fields_fit(sorts, edges, fields),
        TyForm::Union(tags) => some_tag_fits(sorts, edges, tags),
        _ => false,
    }
}

fn is_built_value(sorts: &Sorts, edges: &[Edge], ty: Option<u32>) -> bool
    requires rising { IsStrictlyIncreasing sorts.now.labels }
    requires up { AreUp edges.now }
    ensures { result ≡ spec.is_built_value sorts.now.shapes (at_port sorts.now.labels sorts.now.numbers edges.now) ty }
{
    match ty {
        Some(ty) => is_built(sorts, edges, sorts.ty(ty as usize)),
        None => false,
    }
}

fn is_sequence_of(sorts: &Sorts, elements: Option<u32>, carried: u32) -> bool
    ensures { result ≡ spec.is_sequence_of sorts.now.shapes elements carried }
{
    elements.is_some() && (carried == 0 || are_same(elements, value_of(sorts, carried)))
}

/// The elements of an array or a stream that a value is.
fn sequence_at(sorts: &Sorts, number: u32) -> Option<u32>
    ensures { result ≡ views.sequence_at sorts.now.shapes number }
{
    sequence_of(sorts, value_of(sorts, number)?)
}

/// The elements of an array that a value is.
fn array_at(sorts: &Sorts, number: u32) -> Option<u32>
    ensures { result ≡ views.array_at sorts.now.shapes number }
{
    array_of(sorts, value_of(sorts, number)?)
}

/// The fields of a record that a value is.
fn fields_at(sorts: &Sorts, number: u32) -> Option<u32>
    ensures { result ≡ views.fields_at sorts.now.shapes number }
{
    fields_of(sorts, value_of(sorts, number)?)
}

/// Whether a type is one that the table wants by itself.
fn fits_alone(sorts: &Sorts, named: Option<Reducer>, want: Want, number: u32) -> bool
    ensures { (at : ℕ → ℕ) (callee : ℕ) → IsAlone want → result ≡ spec.fits_at sorts.now.shapes at callee named want number }
{
    let kind = kind_or(sorts, value_of(sorts, number));
    match want {
        Want::Integer | Want::Reduction => kind == Kind::Integer,
        Want::Boolean => kind == Kind::Boolean,
        Want::Character => kind == Kind::Character,
        Want::IntegerOrBoolean => kind == Kind::Integer || kind == Kind::Boolean,
        Want::IntegerOrCharacter => kind == Kind::Integer || kind == Kind::Character,
        Want::Discrete => kind == Kind::Integer
            || (kind == Kind::Boolean || kind == Kind::Character),
        Want::Scalar => kind == Kind::Integer
            || (kind == Kind::Boolean || (kind == Kind::Character || kind == Kind::Null)),
        Want::Any => value_of(sorts, number).is_some(),
        Want::Array => kind == Kind::Array,
        Want::Stream => kind == Kind::Stream,
        Want::Sequence => kind == Kind::Array || kind == Kind::Stream,
        Want::Record => kind == Kind::Record,
        Want::Multiple => many_of(sorts, number).is_some(),
        Want::Integers => kind_or(sorts, many_of(sorts, number)) == Kind::Integer,
        Want::Booleans => kind_or(sorts, many_of(sorts, number)) == Kind::Boolean,
        Want::Reducible => is_reducible(named, kind_or(sorts, many_of(sorts, number))),
        _ => false,
    }
}

/// Whether a type is one that the table wants, by what the other ports carry.
fn fits_beside(sorts: &Sorts, edges: &[Edge], want: Want, number: u32) -> bool
    requires rising { IsStrictlyIncreasing sorts.now.labels }
    requires up { AreUp edges.now }
    ensures { (callee : ℕ) (named : Option reducers.Reducer) → IsBeside want → result ≡ spec.fits_at sorts.now.shapes (at_port sorts.now.labels sorts.now.numbers edges.now) callee named want number }
{
    match want {
        Want::Same(port) => {
            value_of(sorts, number).is_some() && carried_at(sorts, edges, port) == number
        }
        Want::Element(port) => are_same(
            value_of(sorts, number),
            elements_of(sorts, carried_at(sorts, edges, port)),
        ),
        Want::ArrayOf(port) => are_same(
            array_at(sorts, number),
            value_of(sorts, carried_at(sorts, edges, port)),
        ),
        Want::SequenceOf(port) => is_sequence_of(
            sorts,
            sequence_at(sorts, number),
            carried_at(sorts, edges, port),
        ),
        Want::SequenceOfElements(port) => are_same(
            sequence_at(sorts, number),
            many_of(sorts, carried_at(sorts, edges, port)),
        ),
        Want::Elements(port) => are_same(
            many_of(sorts, number),
            sequence_at(sorts, carried_at(sorts, edges, port)),
        ),
        Want::Built => is_built_value(sorts, edges, value_of(sorts, number)),
        Want::FieldOf(field) => are_same(
            listed_at(sorts, fields_at(sorts, carried_at(sorts, edges, 1)), field),
            value_of(sorts, number),
        ),
        _ => false,
    }
}

/// Whether the type of a number is one that the table of nodes wants at a port, where these edges lead
/// into the node, a literal names a function whose type has the number `callee`, 0 for none, or names
/// this reduction (IF1 manual M-170, simple nodes).
pub fn fits(
    sorts: &Sorts,
    edges: &[Edge],
    callee: u32,
    named: Option<Reducer>,
    want: Want,
    number: u32,
) -> bool
    requires rising { IsStrictlyIncreasing sorts.now.labels }
    requires up { AreUp edges.now }
    ensures { result ≡ spec.fits_at sorts.now.shapes (at_port sorts.now.labels sorts.now.numbers edges.now) callee named want number }
{
    match want {
        Want::Function => arguments_of(sorts, number).is_some() && callee == number,
        Want::Argument(place) => are_same(
            listed_at(sorts, arguments_of(sorts, callee), place),
            value_of(sorts, number),
        ),
        Want::Output(place) => are_same(
            listed_at(sorts, results_of(sorts, callee), place),
            value_of(sorts, number),
        ),
        Want::Same(_)
        | Want::Element(_)
        | Want::ArrayOf(_)
        | Want::SequenceOf(_)
        | Want::SequenceOfElements(_)
        | Want::Elements(_)
        | Want::Built
        | Want::FieldOf(_) => fits_beside(sorts, edges, want, number),
        _ => fits_alone(sorts, named, want, number),
    }
}
