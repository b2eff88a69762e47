//! What is wrong with a value text: a limit that it passes, or the leftmost part of another form
//! than that of its type. A place is told by the number of bytes from it to the end.
ghost use Rattle.std.specs.Prelude.{◌≡◌, ◌<◌, ◌-◌, ◌+◌, [], length, drop, Some, None, option_map, IsTrue};
ghost use Rattle.std.specs.Option.{option_copied};
ghost use Rattle.value_text.specs.Tokens.{placed, or_else};
ghost use Rattle.value_text.specs.Faults.{asks, is_int, is_bool, is_char, is_null, is_array, is_text, is_stream, is_record, is_union, element_of, item_of, fields_of, content_of, tag_type, type_at, unless_own};
ghost use Rattle.value_text.specs.Surveying.{scalar_look, items_look, text_look, parts_look, array_look, stream_look, record_look, union_look, content_look, by_front, level_look, look, narrow_tag};

use crate::scalars::{boolean, bound, character, error, int, null, small, tag};
use crate::token::{front, item, sign, skip};
use flow_value::{MOST_ELEMENTS, Name, Ty, array_fits, item_at};

/// What is left of the text from the leftmost misfit on, and the place behind the part.
pub(crate) type Look = (Option<usize>, usize);

/// How many bytes there are from a place on.
fn left(text: &[u8], at: usize) -> usize
    ensures { result ≡ length (drop at text.now) }
{
    text.len().saturating_sub(at)
}

pub(crate) fn unless_own(own: bool, text: &[u8], at: usize, inside: Option<usize>) -> Option<usize>
    ensures { result ≡ unless_own own (length (drop at text.now)) inside }
{
    if own { inside } else { Some(left(text, at)) }
}

fn is_int(ty: Option<&Ty>) -> bool
    ensures { result ≡ asks is_int (option_copied ty.entry) }
{
    match ty {
        None => true,
        Some(Ty::Int) => true,
        Some(_) => false,
    }
}

fn is_bool(ty: Option<&Ty>) -> bool
    ensures { result ≡ asks is_bool (option_copied ty.entry) }
{
    match ty {
        None => true,
        Some(Ty::Bool) => true,
        Some(_) => false,
    }
}

fn is_char(ty: Option<&Ty>) -> bool
    ensures { result ≡ asks is_char (option_copied ty.entry) }
{
    match ty {
        None => true,
        Some(Ty::Char) => true,
        Some(_) => false,
    }
}

fn is_null(ty: Option<&Ty>) -> bool
    ensures { result ≡ asks is_null (option_copied ty.entry) }
{
    match ty {
        None => true,
        Some(Ty::Null) => true,
        Some(_) => false,
    }
}

fn is_array(ty: Option<&Ty>) -> bool
    ensures { result ≡ asks is_array (option_copied ty.entry) }
{
    match ty {
        None => true,
        Some(Ty::Arr(_)) => true,
        Some(_) => false,
    }
}

fn is_text(ty: Option<&Ty>) -> bool
    ensures { result ≡ asks is_text (option_copied ty.entry) }
{
    match ty {
        None => true,
        Some(Ty::Arr(element)) => is_char(Some(element.get())),
        Some(_) => false,
    }
}

fn is_stream(ty: Option<&Ty>) -> bool
    ensures { result ≡ asks is_stream (option_copied ty.entry) }
{
    match ty {
        None => true,
        Some(Ty::Stream(_)) => true,
        Some(_) => false,
    }
}

fn is_record(ty: Option<&Ty>, count: usize) -> bool
    ensures { result ≡ asks (is_record count) (option_copied ty.entry) }
{
    match ty {
        None => true,
        Some(Ty::Rec(fields)) => fields.len() == count,
        Some(_) => false,
    }
}

fn element_of<'a>(ty: Option<&'a Ty>) -> Option<&'a Ty>
    ensures { option_copied result ≡ element_of (option_copied ty.entry) }
{
    match ty {
        None => None,
        Some(Ty::Arr(element)) => Some(element.get()),
        Some(_) => None,
    }
}

fn item_of<'a>(ty: Option<&'a Ty>) -> Option<&'a Ty>
    ensures { option_copied result ≡ item_of (option_copied ty.entry) }
{
    match ty {
        None => None,
        Some(Ty::Stream(element)) => Some(element.get()),
        Some(_) => None,
    }
}

fn fields_of<'a>(ty: Option<&'a Ty>) -> &'a [(Name, Ty)]
    ensures { result.now ≡ fields_of (option_copied ty.entry) }
{
    match ty {
        None => &[],
        Some(Ty::Rec(fields)) => fields.as_slice(),
        Some(_) => &[],
    }
}

/// The type of the field at a place.
fn field_at(fields: &[(Name, Ty)], place: usize) -> Option<&Ty>
    ensures { option_copied result ≡ type_at None fields.now place }
{
    match item_at(fields, place) {
        None => None,
        Some((_, ty)) => Some(ty),
    }
}

fn tag_type(tags: &[(Name, Ty)], n: u64) -> Option<&Ty>
    ensures { option_copied result ≡ tag_type tags.now n }
{
    match small(n) {
        None => None,
        Some(n) => field_at(tags, n as usize),
    }
}

fn content_of<'a>(ty: Option<&'a Ty>, n: u64) -> Option<&'a Ty>
    ensures { option_copied result ≡ content_of n (option_copied ty.entry) }
{
    match ty {
        None => None,
        Some(Ty::Uni(tags)) => tag_type(tags.as_slice(), n),
        Some(_) => None,
    }
}

fn is_union(ty: Option<&Ty>, n: u64) -> bool
    ensures { result ≡ asks (is_union n) (option_copied ty.entry) }
{
    match ty {
        None => true,
        Some(Ty::Uni(tags)) => tag_type(tags.as_slice(), n).is_some(),
        Some(_) => false,
    }
}

fn type_at<'a>(ty: Option<&'a Ty>, fields: &'a [(Name, Ty)], place: usize) -> Option<&'a Ty>
    ensures { option_copied result ≡ type_at (option_copied ty.entry) fields.now place }
{
    match ty {
        None => field_at(fields, place),
        Some(ty) => Some(ty),
    }
}

/// The first of two misfits.
pub(crate) fn first(misfit: Option<usize>, later: Option<usize>) -> Option<usize>
    ensures { result ≡ or_else misfit later }
{
    match misfit {
        None => later,
        Some(left) => Some(left),
    }
}

#[tactic(auto, unfolding(crate::specs::Surveying::scalar_look))]
fn scalar(ty: Option<&Ty>, text: &[u8], at: usize) -> Option<Look>
    ensures { scalar_look (option_copied ty.entry) (drop at text.now) ≡ placed text.now result }
{
    if let Some((_, end)) = boolean(text, at) {
        return Some((unless_own(is_bool(ty), text, at, None), end));
    }
    if let Some((_, end)) = null(text, at) {
        return Some((unless_own(is_null(ty), text, at, None), end));
    }
    if let Some((_, end)) = character(text, at) {
        return Some((unless_own(is_char(ty), text, at, None), end));
    }
    let (_, end) = int(text, at)?;
    Some((unless_own(is_int(ty), text, at, None), end))
}

/// How many items a text has up to its quote, if they are at most so many.
#[tactic(auto, unfolding(crate::specs::Surveying::items_look))]
pub(crate) fn items(most: usize, text: &[u8], from: usize) -> Option<(usize, usize)>
    ensures { items_look most (drop from text.now) ≡ placed text.now result }
{
    let mut at = from;
    for count in 0..most {
        if let Some(end) = sign(text, at, b'"') {
            return Some((count, end));
        }
        let (_, behind) = item(text, at, b'"')?;
        at = behind;
    }
    let end = sign(text, at, b'"')?;
    Some((most, end))
}

#[tactic(auto, unfolding(crate::specs::Surveying::text_look))]
fn quoted(ty: Option<&Ty>, below: usize, text: &[u8], at: usize) -> Option<Look>
    ensures { text_look (option_copied ty.entry) below (drop at text.now) ≡ placed text.now result }
{
    let open = sign(text, at, b'"')?;
    let (count, end) = items(MOST_ELEMENTS, text, open)?;
    if count == 0 || 0 < below {
        Some((unless_own(is_text(ty), text, at, None), end))
    } else {
        None
    }
}

/// Looks at the part at a place, where so many levels are left; none where it passes a limit.
#[cycle(survey)]
pub fn survey(ty: Option<&Ty>, levels: usize, text: &[u8], at: usize) -> Option<Look>
    ensures { look levels (option_copied ty.entry) (drop at text.now) ≡ placed text.now result }
{
    if levels == 0 {
        return None;
    }
    level(ty, levels - 1, text, at)
}

#[cycle(survey)]
fn level(ty: Option<&Ty>, below: usize, text: &[u8], at: usize) -> Option<Look>
    ensures { level_look below (look below) (option_copied ty.entry) (drop at text.now) ≡ placed text.now result }
{
    if let Some((_, end)) = error(text, at) {
        return Some((None, end));
    }
    by_front(ty, below, text, at)
}

#[cycle(survey)]
fn by_front(ty: Option<&Ty>, below: usize, text: &[u8], at: usize) -> Option<Look>
    ensures { by_front below (look below) (option_copied ty.entry) (drop at text.now) ≡ placed text.now result }
{
    match front(text, at)? {
        b'[' => array(ty, below, text, at),
        b'{' => stream(ty, below, text, at),
        b'<' => record(ty, below, text, at),
        b'(' => union(ty, below, text, at),
        b'"' => quoted(ty, below, text, at),
        _ => scalar(ty, text, at),
    }
}

/// Parts up to the closing byte: how many, and the leftmost misfit.
#[cycle(survey)]
#[tactic(auto, unfolding(crate::specs::Surveying::parts_look))]
fn parts(
    ty: Option<&Ty>,
    fields: &[(Name, Ty)],
    levels: usize,
    close: u8,
    most: usize,
    text: &[u8],
    from: usize,
) -> Option<((usize, Option<usize>), usize)>
    ensures { parts_look (look levels) (option_copied ty.entry) fields.now close most 0 (drop from text.now) ≡ placed text.now result }
{
    let mut misfit = None;
    let mut at = from;
    for count in 0..most {
        if let Some(end) = sign(text, at, close) {
            return Some(((count, misfit), end));
        }
        let (inside, behind) = survey(type_at(ty, fields, count), levels, text, at)?;
        misfit = first(misfit, inside);
        at = skip(text, behind);
    }
    let end = sign(text, at, close)?;
    Some(((most, misfit), end))
}

#[cycle(survey)]
#[tactic(auto, unfolding(crate::specs::Surveying::array_look))]
fn array(ty: Option<&Ty>, below: usize, text: &[u8], at: usize) -> Option<Look>
    ensures { array_look (look below) (option_copied ty.entry) (drop at text.now) ≡ placed text.now result }
{
    let (lo, behind) = bound(text, at)?;
    let ((count, inside), end) = parts(
        element_of(ty),
        &[],
        below,
        b']',
        MOST_ELEMENTS,
        text,
        skip(text, behind),
    )?;
    if !array_fits(lo, count) {
        return None;
    }
    Some((unless_own(is_array(ty), text, at, inside), end))
}

#[cycle(survey)]
#[tactic(auto, unfolding(crate::specs::Surveying::stream_look))]
fn stream(ty: Option<&Ty>, below: usize, text: &[u8], at: usize) -> Option<Look>
    ensures { stream_look (look below) (option_copied ty.entry) (drop at text.now) ≡ placed text.now result }
{
    let open = sign(text, at, b'{')?;
    let ((_, inside), end) = parts(
        item_of(ty),
        &[],
        below,
        b'}',
        MOST_ELEMENTS,
        text,
        skip(text, open),
    )?;
    Some((unless_own(is_stream(ty), text, at, inside), end))
}

#[cycle(survey)]
#[tactic(auto, unfolding(crate::specs::Surveying::record_look))]
fn record(ty: Option<&Ty>, below: usize, text: &[u8], at: usize) -> Option<Look>
    ensures { record_look (look below) (option_copied ty.entry) (drop at text.now) ≡ placed text.now result }
{
    let open = sign(text, at, b'<')?;
    let ((count, inside), end) = parts(
        None,
        fields_of(ty),
        below,
        b'>',
        MOST_ELEMENTS,
        text,
        skip(text, open),
    )?;
    Some((unless_own(is_record(ty, count), text, at, inside), end))
}

/// A tag's number of 64 signed bits.
pub(crate) fn narrow_tag(n: u64) -> Option<u64>
    ensures { result ≡ narrow_tag n }
{
    if n < 9223372036854775808 {
        Some(n)
    } else {
        None
    }
}

#[cycle(survey)]
#[tactic(auto, unfolding(crate::specs::Surveying::union_look))]
fn union(ty: Option<&Ty>, below: usize, text: &[u8], at: usize) -> Option<Look>
    ensures { union_look (look below) (option_copied ty.entry) (drop at text.now) ≡ placed text.now result }
{
    let (n, behind) = tag(text, at)?;
    let n = narrow_tag(n)?;
    let (inside, last) = survey(content_of(ty, n), below, text, skip(text, behind))?;
    let end = sign(text, skip(text, last), b')')?;
    Some((unless_own(is_union(ty, n), text, at, inside), end))
}
