//! The types of the contents of a union's tags, by arm.
ghost use Rattle.std.specs.Prelude.{◌≡◌, ℕ, ◌<◌, length, get_or, replicate, IfOk, slice_set};
ghost use Rattle.if1_typing.specs.Tables.{table_of};
ghost use Rattle.if1_typing.specs.Sites.{content_in};
ghost use Rattle.if1_typing.specs.Contents as spec;

use crate::known::Known;
use crate::site::{Content, Frame};
use flow_value::NoMemory;
use if1_types::ListForm;
use std::alloc::Global;

/// One more tag, whose type may not be known.
fn with_tag(content: Content, ty: Option<u32>) -> Content
    ensures { result ≡ spec.with_tag content ty }
{
    match (content, ty) {
        (_, None) => Content::Never,
        (Content::Any, Some(ty)) => Content::One(ty),
        (Content::One(one), Some(ty)) if one == ty => Content::One(one),
        (Content::One(_) | Content::Never, Some(_)) => Content::Never,
    }
}

fn first_at(known: &Known, list: Option<u32>) -> Option<u32>
    ensures { result ≡ spec.first_at (table_of known.now).keys list }
{
    match known.sorts.list(list?) {
        ListForm::Member(ty, _) => Some(ty),
        ListForm::End => None,
    }
}

fn rest_at(known: &Known, list: Option<u32>) -> Option<u32>
    ensures { result ≡ spec.rest_at (table_of known.now).keys list }
{
    match known.sorts.list(list?) {
        ListForm::Member(_, rest) => Some(rest),
        ListForm::End => None,
    }
}

/// The content at a place, any where there is none.
pub fn content_at(contents: &[Content], place: usize) -> Content
    ensures { result ≡ get_or contents.now place Content.Any }
{
    match contents.get(place) {
        Some(content) => *content,
        None => Content::Any,
    }
}

fn no_contents(alloc: Global, arms: usize) -> Result<Vec<Content>, NoMemory>
    ensures { IfOk result (λ v. v.items ≡ replicate arms Content.Any) }
{
    let mut contents = Vec::with_capacity(alloc, arms)?;
    for _ in 0..arms {
        contents.push(Content::Any)?;
    }
    Ok(contents)
}

// a place beyond the arms has no content
fn set_at(contents: &mut Vec<Content>, place: usize, content: Content)
    ensures { contents.new.items ≡ slice_set contents.old.items place content }
{
    if place < contents.len() {
        contents[place] = content;
    }
}

/// The contents of so many arms, by the list of a union's tags and the arm of each tag.
fn arm_contents(
    alloc: Global,
    known: &Known,
    tags: Option<u32>,
    list: &[u32],
    arms: usize,
) -> Result<Vec<Content>, NoMemory>
    ensures { IfOk result (λ v. (k : ℕ) → k < arms → get_or v.items k Content.Any ≡ spec.content_from (table_of known.now).keys Content.Any tags list.now k) }
{
    let mut contents = no_contents(alloc, arms)?;
    let mut rest = tags;
    for arm in list {
        let place = *arm as usize;
        let content = with_tag(
            content_at(contents.as_slice(), place),
            first_at(known, rest),
        );
        set_at(&mut contents, place, content);
        rest = rest_at(known, rest);
    }
    Ok(contents)
}

/// The contents of so many graphs in a compound node, if they are arms; none for a simple node.
pub fn contents_of(
    alloc: Global,
    known: &Known,
    frame: Option<Frame>,
    list: &[u32],
    arms: usize,
) -> Result<Vec<Content>, NoMemory>
    ensures { IfOk result (λ v. (k : ℕ) → k < arms → get_or v.items k Content.Any ≡ content_in (table_of known.now) frame list.now k) }
{
    match frame {
        Some(frame) => arm_contents(alloc, known, frame.tags, list, arms),
        None => Ok(Vec::new(alloc)),
    }
}
