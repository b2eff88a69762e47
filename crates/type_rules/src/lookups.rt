//! What types by number are made of.
ghost use Rattle.std.specs.Prelude.{◌≡◌, Some, None, IfSome};
ghost use Rattle.std.specs.Option.{option_map};
ghost use Rattle.type_rules.specs.Parts.{array_part, array_at, stream_part, stream_at, sequence_part, sequence_at, field_at, tag_at, tags_at, element_in, form_in, is_part, is_record_at};

use crate::head::Container;
use type_table::{Form, Member, Types};

/// The type of the elements of an array or a stream.
pub fn element_of(types: &Types, ty: usize) -> Option<usize>
    ensures { result ≡ sequence_at types.now ty }
{
    match types.form(ty) {
        Some(form) => sequence_part(form),
        None => None,
    }
}

fn sequence_part(form: &Form) -> Option<usize>
    ensures { result ≡ sequence_part form.now }
{
    match form {
        Form::Array(element) | Form::Stream(element) => Some(*element),
        _ => None,
    }
}

fn array_part(form: &Form) -> Option<usize>
    ensures { result ≡ array_part form.now }
{
    match form {
        Form::Array(element) => Some(*element),
        _ => None,
    }
}

fn stream_part(form: &Form) -> Option<usize>
    ensures { result ≡ stream_part form.now }
{
    match form {
        Form::Stream(element) => Some(*element),
        _ => None,
    }
}

/// The type of the elements of an array.
pub fn array_at(types: &Types, ty: usize) -> Option<usize>
    ensures { result ≡ array_at types.now ty }
{
    match types.form(ty) {
        Some(form) => array_part(form),
        None => None,
    }
}

/// The type of the elements of a stream.
pub fn stream_at(types: &Types, ty: usize) -> Option<usize>
    ensures { result ≡ stream_at types.now ty }
{
    match types.form(ty) {
        Some(form) => stream_part(form),
        None => None,
    }
}

/// The type of the elements of a container of this kind.
pub fn element_in(types: &Types, container: Container, ty: usize) -> Option<usize>
    ensures { result ≡ element_in types.now container ty }
{
    match container {
        Container::Array => array_at(types, ty),
        Container::Stream => stream_at(types, ty),
    }
}

/// The container of this kind with elements of a type.
pub fn form_in(container: Container, element: usize) -> Form
    ensures { result ≡ form_in container element }
{
    match container {
        Container::Array => Form::Array(element),
        Container::Stream => Form::Stream(element),
    }
}

/// Whether there is a part, of this type.
pub fn is_part(part: Option<usize>, ty: usize) -> bool
    ensures { result ≡ is_part part ty }
{
    match part {
        Some(part) => part == ty,
        None => false,
    }
}

/// Whether a type is a record.
pub fn is_record_at(types: &Types, ty: usize) -> bool
    ensures { result ≡ is_record_at types.now ty }
{
    match types.form(ty) {
        Some(Form::Record(_)) => true,
        _ => false,
    }
}

/// The place and the type of the first field of a name in a record; none where the type is no
/// record or has no such field.
pub fn field_at(types: &Types, ty: usize, name: u32) -> Option<(u32, usize)>
    ensures { result ≡ field_at types.now ty name }
{
    match types.form(ty) {
        Some(Form::Record(_)) => types.member(ty, name),
        _ => None,
    }
}

/// The place, from 0, of a tag in a union, and the type of its content; none where the type is no
/// union or has no such tag.
pub fn member_in_union(types: &Types, ty: usize, tag: u32) -> Option<(u32, usize)>
    ensures { result ≡ tag_at types.now ty tag }
{
    match types.form(ty) {
        Some(Form::Union(_)) => types.member(ty, tag),
        _ => None,
    }
}

/// The tags of a union in order; none where the type is no union.
pub fn tags_of(types: &Types, ty: usize) -> Option<&[Member]>
    ensures { option_map (λ ms. ms.now) result ≡ tags_at types.now ty }
{
    match types.form(ty) {
        Some(Form::Union(tags)) => Some(tags.as_slice()),
        _ => None,
    }
}
