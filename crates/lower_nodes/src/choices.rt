//! What the table of types tells, and the arms of a `tagcase`.
ghost use Rattle.std.specs.Prelude.{◌≡◌, ◌<◌, IfOk, get_or, length, nat_eq, replicate, slice_set, if◌then◌else◌};
ghost use Rattle.type_table.specs.Tables.{members_at};
ghost use Rattle.lowering.specs.Choices.{element_of, is_array, tag_count, content_of, type_of, arms_of};
ghost use Rattle.typed_tree.specs.declared.expr.Choice.{Choice};
ghost use Rattle.lower_nodes.specs.Rows.{tags_named, first_or_second};

use flow_value::{NoMemory, Numbers, Seq, item_at};
use lowering::Carried;
use std::alloc::Global;
use type_table::{Form, Member, Types};
use typed_tree::{Case, Choice};

/// The type of the elements of an array or a stream.
pub fn element_of(forms: &Types, ty: usize) -> usize
    ensures { result ≡ element_of forms.now ty }
{
    match forms.form(ty) {
        Some(Form::Array(element)) => *element,
        Some(Form::Stream(element)) => *element,
        _ => 0,
    }
}

/// Whether a type is an array.
pub fn is_array(forms: &Types, ty: usize) -> bool
    ensures { result ≡ is_array forms.now ty }
{
    match forms.form(ty) {
        Some(Form::Array(_)) => true,
        _ => false,
    }
}

/// The fields of a record, or the tags of a union.
fn members_of(forms: &Types, ty: usize) -> &[Member]
    ensures { result.now ≡ members_at forms.now ty }
{
    match forms.form(ty) {
        Some(Form::Record(members)) => members.as_slice(),
        Some(Form::Union(members)) => members.as_slice(),
        _ => &[],
    }
}

/// How many tags a union has.
pub fn tag_count(forms: &Types, ty: usize) -> usize
    ensures { result ≡ tag_count forms.now ty }
{
    members_of(forms, ty).len()
}

/// The type of the content of a union at a tag.
pub fn content_of(forms: &Types, ty: usize, tag: u32) -> usize
    ensures { result ≡ content_of forms.now ty tag }
{
    match item_at(members_of(forms, ty), tag as usize) {
        Some(member) => member.ty,
        None => 0,
    }
}

/// The type of a value, or of the values of a multiple.
pub fn type_of(ty: Carried) -> usize
    ensures { result ≡ type_of ty }
{
    match ty {
        Carried::One(ty) => ty,
        Carried::Many(ty) => ty,
        Carried::Callee(_) => 0,
    }
}

/// So many numbers, all the same.
fn same_numbers(alloc: Global, count: usize, number: u32) -> Result<Numbers, NoMemory>
    ensures { IfOk result (λ ns. ns ≡ replicate count number) }
{
    let mut numbers = Seq::with_room(alloc, count)?;
    for place in 0..count {
        numbers.add(number)?;
    }
    Ok(numbers)
}

/// The arm of each of so many tags: the first for one tag, the second for all others.
pub fn two_arms(alloc: Global, tag: u32, tags: usize) -> Result<Numbers, NoMemory>
    ensures { IfOk result (λ arms. arms ≡ first_or_second tag 0 tags) }
{
    let mut arms = Seq::with_room(alloc, tags)?;
    for place in 0..tags {
        arms.add(either(place, tag))?;
    }
    Ok(arms)
}

/// The first arm for one tag, the second for all others.
fn either(place: usize, tag: u32) -> u32
    ensures { result ≡ (if nat_eq place tag then 0 else 1) }
{
    if place == tag as usize { 0 } else { 1 }
}

/// Changes the number at a place, if it is there.
#[tactic(auto, using(crate::proofs::Lists::set_past))]
fn note(numbers: &mut Numbers, place: usize, number: u32)
    ensures { numbers.new ≡ slice_set numbers.old place number }
{
    if place < numbers.len() {
        numbers.set(place, number);
    }
}

/// A choice of a list.
fn choice_at(choices: &[Choice], place: usize) -> Choice
    requires { place < length choices.now }
    ensures { (other : Choice) → result ≡ get_or choices.now place other }
{
    choices[place]
}

/// Notes the arm of a tag.
fn note_arm(arms: &mut Numbers, choice: Choice)
    ensures { arms.new ≡ slice_set arms.old choice.tag choice.arm }
{
    note(arms, choice.tag as usize, choice.arm);
}

/// Notes the tag of an arm.
fn note_tag(tags: &mut Numbers, choice: Choice)
    ensures { tags.new ≡ slice_set tags.old choice.arm choice.tag }
{
    note(tags, choice.arm as usize, choice.tag);
}

/// The arm of each of so many tags: that of the first choice that names it, or that of all others.
pub fn arms_of(alloc: Global, case: &Case, tags: usize) -> Result<Numbers, NoMemory>
    ensures { IfOk result (λ arms. arms ≡ arms_of case.now tags) }
{
    let mut arms = same_numbers(alloc, tags, case.others)?;
    let choices = case.choices.as_slice();
    let mut left = choices.len();
    while left > 0 {
        left -= 1;
        let choice = choice_at(choices, left);
        note_arm(&mut arms, choice);
    }
    Ok(arms)
}

/// For each of so many arms the first tag that is named for it, and 0 where there is none.
pub fn first_tags(alloc: Global, choices: &[Choice], arms: usize) -> Result<Numbers, NoMemory>
    ensures { IfOk result (λ tags. tags ≡ tags_named 0 arms choices.now) }
{
    let mut tags = same_numbers(alloc, arms, 0)?;
    let mut left = choices.len();
    while left > 0 {
        left -= 1;
        let choice = choice_at(choices, left);
        note_tag(&mut tags, choice);
    }
    Ok(tags)
}
