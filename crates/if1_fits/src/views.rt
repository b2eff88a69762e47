//! What the numbers of sorts, types and lists of types lead to.
ghost use Rattle.std.specs.Prelude.{◌≡◌, find, ◌==◌};
ghost use Rattle.std.specs.Option.{option_copied};
ghost use Rattle.if1_types.specs.Forms.{sort_form_at};
ghost use Rattle.std.specs.List.Sorted.{IsStrictlyIncreasing};
ghost use Rattle.if1_fits.specs.Views as spec;
ghost use Rattle.if1_fits.specs.Views.{AreUp};

use crate::kind::Kind;
use flow_value::item_at;
use if1_graph::Edge;
use if1_types::{SortForm, Sorts, TyForm};

/// The type of a value.
pub fn value_of(sorts: &Sorts, number: u32) -> Option<u32>
    ensures { result ≡ spec.value_of sorts.now.shapes number }
{
    match sorts.sort(number) {
        SortForm::Value(ty) => Some(ty),
        _ => None,
    }
}

/// The type of the values of a multiple.
pub fn many_of(sorts: &Sorts, number: u32) -> Option<u32>
    ensures { result ≡ spec.many_of sorts.now.shapes number }
{
    match sorts.sort(number) {
        SortForm::Multiple(ty) => Some(ty),
        _ => None,
    }
}

/// The elements of an array.
pub fn array_of(sorts: &Sorts, ty: u32) -> Option<u32>
    ensures { result ≡ spec.array_of sorts.now.shapes ty }
{
    match sorts.ty(ty as usize) {
        TyForm::Array(element) => Some(element),
        _ => None,
    }
}

/// The elements of an array or a stream.
pub fn sequence_of(sorts: &Sorts, ty: u32) -> Option<u32>
    ensures { result ≡ spec.sequence_of sorts.now.shapes ty }
{
    match sorts.ty(ty as usize) {
        TyForm::Array(element) | TyForm::Stream(element) => Some(element),
        _ => None,
    }
}

/// The tags of a union, as a list.
pub fn tags_of(sorts: &Sorts, ty: u32) -> Option<u32>
    ensures { result ≡ spec.tags_of sorts.now.shapes ty }
{
    match sorts.ty(ty as usize) {
        TyForm::Union(tags) => Some(tags),
        _ => None,
    }
}

/// The fields of a record, as a list.
pub fn fields_of(sorts: &Sorts, ty: u32) -> Option<u32>
    ensures { result ≡ spec.fields_of sorts.now.shapes ty }
{
    match sorts.ty(ty as usize) {
        TyForm::Record(fields) => Some(fields),
        _ => None,
    }
}

/// The first list of types in a function, that of its arguments.
pub fn arguments_of(sorts: &Sorts, number: u32) -> Option<u32>
    ensures { result ≡ spec.arguments_in (sort_form_at sorts.now.shapes number) }
{
    match sorts.sort(number) {
        SortForm::Function(arguments, _) => Some(arguments),
        _ => None,
    }
}

/// The second list of types in a function, that of its results.
pub fn results_of(sorts: &Sorts, number: u32) -> Option<u32>
    ensures { result ≡ spec.results_in (sort_form_at sorts.now.shapes number) }
{
    match sorts.sort(number) {
        SortForm::Function(_, results) => Some(results),
        _ => None,
    }
}

fn kind_in(form: TyForm) -> Kind
    ensures { result ≡ spec.kind_in form }
{
    match form {
        TyForm::Nothing => Kind::Nothing,
        TyForm::Boolean => Kind::Boolean,
        TyForm::Character => Kind::Character,
        TyForm::Integer => Kind::Integer,
        TyForm::Null => Kind::Null,
        TyForm::Array(_) => Kind::Array,
        TyForm::Stream(_) => Kind::Stream,
        TyForm::Record(_) => Kind::Record,
        TyForm::Union(_) => Kind::Union,
    }
}

/// The kind of a type, if there is one.
pub fn kind_or(sorts: &Sorts, ty: Option<u32>) -> Kind
    ensures { result ≡ spec.kind_or sorts.now.shapes ty }
{
    match ty {
        Some(ty) => kind_in(sorts.ty(ty as usize)),
        None => Kind::Nothing,
    }
}

/// The type at a port of a list, from 1.
pub fn listed_at(sorts: &Sorts, list: Option<u32>, port: u32) -> Option<u32>
    ensures { result ≡ spec.listed_at sorts.now.shapes list port }
{
    if port == 0 {
        return None;
    }
    sorts.member(list?, port - 1)
}

/// Whether two numbers, where both are there, are equal.
pub fn are_same(one: Option<u32>, other: Option<u32>) -> bool
    ensures { result ≡ spec.are_same one other }
{
    match (one, other) {
        (Some(one), Some(other)) => one == other,
        _ => false,
    }
}

/// The edge into a port, where ports do not fall. Takes the time of a search.
pub fn edge_at(edges: &[Edge], port: u32) -> Option<&Edge>
    requires { AreUp edges.now }
    ensures { option_copied result ≡ find (λ e. e.port == port) edges.now }
{
    let first = edges.partition_point(|e| e.port < port);
    edge_with(item_at(edges, first), port)
}

// an edge into another port is no answer
fn edge_with(edge: Option<&Edge>, port: u32) -> Option<&Edge>
    ensures { option_copied result ≡ spec.with_port port (option_copied edge.entry) }
{
    match edge {
        Some(edge) if edge.port == port => Some(edge),
        _ => None,
    }
}

/// The number of what an edge carries, 0 where there is no edge.
fn number_of(sorts: &Sorts, edge: Option<&Edge>) -> u32
    requires { IsStrictlyIncreasing sorts.now.labels }
    ensures { result ≡ spec.number_of sorts.now.labels sorts.now.numbers (option_copied edge.entry) }
{
    match edge {
        Some(edge) => sorts.number(edge.ty),
        None => 0,
    }
}

/// The number of what the edge into a port carries, 0 where nothing is carried. Takes the time of a
/// search.
pub fn carried_at(sorts: &Sorts, edges: &[Edge], port: u32) -> u32
    requires rising { IsStrictlyIncreasing sorts.now.labels }
    requires up { AreUp edges.now }
    ensures { result ≡ spec.carried_at sorts.now.labels sorts.now.numbers edges.now port }
{
    number_of(sorts, edge_at(edges, port))
}
