//! What the table of types tells, and the names in the arms of a `tagcase`.
ghost use Rattle.std.specs.Prelude.{◌≡◌, List, get_or};
ghost use Rattle.type_table.specs.Tables.{members_at};
ghost use Rattle.lowering.specs.Choices.{element_of, is_array, content_of, first_tag};
ghost use Rattle.lowering.specs.declared.feed.Carried.{Carried};
ghost use Rattle.line_walk.specs.Met.{with_name};
ghost use Rattle.line_types.specs.Traces.{arm_names};

use flow_value::item_at;
use lowering::Carried;
use type_table::{Form, Member, Types};
use typed_tree::Case;

/// The type of the elements of an array or a stream.
pub fn element_of(types: &Types, ty: usize) -> usize
    ensures { result ≡ element_of types.now ty }
{
    match types.form(ty) {
        Some(Form::Array(element)) => *element,
        Some(Form::Stream(element)) => *element,
        _ => 0,
    }
}

/// Whether a type is an array.
pub fn is_array(types: &Types, ty: usize) -> bool
    ensures { result ≡ is_array types.now ty }
{
    match types.form(ty) {
        Some(Form::Array(_)) => true,
        _ => false,
    }
}

/// The fields of a record, or the tags of a union.
fn members_of(types: &Types, ty: usize) -> &[Member]
    ensures { result.now ≡ members_at types.now ty }
{
    match types.form(ty) {
        Some(Form::Record(members)) => members.as_slice(),
        Some(Form::Union(members)) => members.as_slice(),
        _ => &[],
    }
}

/// The type of the content of a union at a tag.
fn content_of(types: &Types, ty: usize, tag: u32) -> usize
    ensures { result ≡ content_of types.now ty tag }
{
    match item_at(members_of(types, ty), tag as usize) {
        Some(member) => member.ty,
        None => 0,
    }
}

/// A number of a list, 0 where there is none.
fn number_at(numbers: &[u32], place: usize) -> u32
    ensures { result ≡ get_or numbers.now place 0 }
{
    if place < numbers.len() {
        numbers[place]
    } else {
        0
    }
}

/// What the name of the content of a union carries in an arm that has one, by the first tags of the
/// arms.
pub fn arm_name(types: &Types, case: &Case, tags: &[u32], ty: usize, arm: usize) -> Option<Carried>
    requires { get_or tags.now arm 0 ≡ first_tag case.now arm }
    ensures { (env : List Carried) → with_name result env ≡ arm_names types.now case.now ty arm env }
{
    if arm < case.named as usize {
        Some(Carried::One(content_of(types, ty, number_at(tags, arm))))
    } else {
        None
    }
}
