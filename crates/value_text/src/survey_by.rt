//! What is wrong with a value text beside a type by its number: a limit that it passes, or the leftmost
//! part of another form than that of its type.
ghost use Rattle.std.specs.Prelude.{◌≡◌, drop, length, option_map, slice_get};
ghost use Rattle.value_text.specs.Tokens.{placed};
ghost use Rattle.value_text.specs.SurveyingBy.{form_if, asks_by, is_integer, is_boolean, is_character, is_nil_type, is_array_type, is_text_type, is_stream_type, fields_if, asks_record, tag_by, content_if, content_by_form, asks_union, element_if, item_if, type_by, scalar_look_by, text_look_by, parts_look_by, array_look_by, stream_look_by, record_look_by, content_look_by, union_look_by, front_by, level_look_by, look_by};

use crate::numbered::NumberedTypes;
use crate::scalars::{boolean, bound, character, error, int, null, small, tag};
use crate::survey::{Look, first, items, narrow_tag, unless_own};
use crate::token::{front, sign, skip};
use crate::type_form::TypeForm;
use flow_value::{MOST_ELEMENTS, array_fits};

/// What a type is, where one is asked for.
fn form_if<T: NumberedTypes>(types: &T, number: Option<usize>) -> Option<TypeForm>
    ensures { result ≡ form_if (T.seen types.now) number }
{
    match number {
        None => None,
        Some(number) => Some(types.form_of(number)),
    }
}

fn is_integer(form: Option<TypeForm>) -> bool
    ensures { result ≡ asks_by is_integer form }
{
    match form {
        None => true,
        Some(TypeForm::Integer) => true,
        Some(_) => false,
    }
}

fn is_boolean(form: Option<TypeForm>) -> bool
    ensures { result ≡ asks_by is_boolean form }
{
    match form {
        None => true,
        Some(TypeForm::Boolean) => true,
        Some(_) => false,
    }
}

fn is_character(form: Option<TypeForm>) -> bool
    ensures { result ≡ asks_by is_character form }
{
    match form {
        None => true,
        Some(TypeForm::Character) => true,
        Some(_) => false,
    }
}

fn is_null(form: Option<TypeForm>) -> bool
    ensures { result ≡ asks_by is_nil_type form }
{
    match form {
        None => true,
        Some(TypeForm::Null) => true,
        Some(_) => false,
    }
}

fn is_array(form: Option<TypeForm>) -> bool
    ensures { result ≡ asks_by is_array_type form }
{
    match form {
        None => true,
        Some(TypeForm::Array(_)) => true,
        Some(_) => false,
    }
}

fn is_text<T: NumberedTypes>(types: &T, form: Option<TypeForm>) -> bool
    ensures { result ≡ asks_by (is_text_type (T.seen types.now)) form }
{
    match form {
        None => true,
        Some(TypeForm::Array(element)) => is_character(Some(types.form_of(element))),
        Some(_) => false,
    }
}

fn is_stream(form: Option<TypeForm>) -> bool
    ensures { result ≡ asks_by is_stream_type form }
{
    match form {
        None => true,
        Some(TypeForm::Stream(_)) => true,
        Some(_) => false,
    }
}

/// Whether the type, if one is asked for, is a record of so many fields.
fn is_record<T: NumberedTypes>(types: &T, number: Option<usize>, count: usize) -> bool
    ensures { result ≡ asks_record (T.seen types.now) count number }
{
    let Some(number) = number else {
        return true;
    };
    match types.form_of(number) {
        TypeForm::Record => types.count_of(number) == count,
        _ => false,
    }
}

fn element_of(form: Option<TypeForm>) -> Option<usize>
    ensures { result ≡ element_if form }
{
    match form {
        None => None,
        Some(TypeForm::Array(element)) => Some(element),
        Some(_) => None,
    }
}

fn item_of(form: Option<TypeForm>) -> Option<usize>
    ensures { result ≡ item_if form }
{
    match form {
        None => None,
        Some(TypeForm::Stream(element)) => Some(element),
        Some(_) => None,
    }
}

/// The type of the member at a place of a record, where one is asked for.
fn field_at<T: NumberedTypes>(types: &T, number: Option<usize>, place: usize) -> Option<usize>
    ensures { result ≡ slice_get (fields_if (T.seen types.now) number) place }
{
    let number = number?;
    match types.form_of(number) {
        TypeForm::Record => types.member_of(number, place),
        _ => None,
    }
}

/// The type of the part at a place: that of all parts, or that of the member of a record.
fn type_at<T: NumberedTypes>(
    types: &T,
    each: Option<usize>,
    of: Option<usize>,
    place: usize,
) -> Option<usize>
    ensures { result ≡ type_by each (fields_if (T.seen types.now) of) place }
{
    match each {
        None => field_at(types, of, place),
        Some(ty) => Some(ty),
    }
}

fn tag_at<T: NumberedTypes>(types: &T, number: usize, n: u64) -> Option<usize>
    ensures { result ≡ tag_by ((T.seen types.now).members number) n }
{
    match small(n) {
        None => None,
        Some(n) => types.member_of(number, n as usize),
    }
}

/// The content of a tag, by its number, of a type that is a union.
fn content_at<T: NumberedTypes>(types: &T, number: usize, n: u64) -> Option<usize>
    ensures { result ≡ content_by_form (T.seen types.now) number n ((T.seen types.now).form number) }
{
    match types.form_of(number) {
        TypeForm::Union => tag_at(types, number, n),
        _ => None,
    }
}

fn content_of<T: NumberedTypes>(types: &T, number: Option<usize>, n: u64) -> Option<usize>
    ensures { result ≡ content_if (T.seen types.now) n number }
{
    match number {
        None => None,
        Some(number) => content_at(types, number, n),
    }
}

/// Whether the type, if one is asked for, is a union with a tag of this number.
fn is_union<T: NumberedTypes>(types: &T, number: Option<usize>, n: u64) -> bool
    ensures { result ≡ asks_union (T.seen types.now) n number }
{
    match number {
        None => true,
        Some(number) => content_at(types, number, n).is_some(),
    }
}

#[tactic(auto, unfolding(crate::specs::SurveyingBy::scalar_look_by))]
fn scalar(form: Option<TypeForm>, text: &[u8], at: usize) -> Option<Look>
    ensures { scalar_look_by form (drop at text.now) ≡ placed text.now result }
{
    if let Some((_, end)) = boolean(text, at) {
        return Some((unless_own(is_boolean(form), text, at, None), end));
    }
    if let Some((_, end)) = null(text, at) {
        return Some((unless_own(is_null(form), text, at, None), end));
    }
    if let Some((_, end)) = character(text, at) {
        return Some((unless_own(is_character(form), text, at, None), end));
    }
    let (_, end) = int(text, at)?;
    Some((unless_own(is_integer(form), text, at, None), end))
}

#[tactic(auto, unfolding(crate::specs::SurveyingBy::text_look_by))]
fn quoted<T: NumberedTypes>(
    types: &T,
    form: Option<TypeForm>,
    below: usize,
    text: &[u8],
    at: usize,
) -> Option<Look>
    ensures { text_look_by (T.seen types.now) form below (drop at text.now) ≡ placed text.now result }
{
    let open = sign(text, at, b'"')?;
    let (count, end) = items(MOST_ELEMENTS, text, open)?;
    if count == 0 || 0 < below {
        Some((unless_own(is_text(types, form), text, at, None), end))
    } else {
        None
    }
}

/// Looks at the part at a place, where so many levels are left; none where it passes a limit.
#[cycle(survey)]
pub fn survey_by<T: NumberedTypes>(
    types: &T,
    number: Option<usize>,
    levels: usize,
    text: &[u8],
    at: usize,
) -> Option<Look>
    ensures { look_by (T.seen types.now) levels number (drop at text.now) ≡ placed text.now result }
{
    if levels == 0 {
        return None;
    }
    level(types, number, levels - 1, text, at)
}

#[cycle(survey)]
fn level<T: NumberedTypes>(
    types: &T,
    number: Option<usize>,
    below: usize,
    text: &[u8],
    at: usize,
) -> Option<Look>
    ensures { level_look_by (T.seen types.now) below (look_by (T.seen types.now) below) number (drop at text.now) ≡ placed text.now result }
{
    if let Some((_, end)) = error(text, at) {
        return Some((None, end));
    }
    by_front(types, number, below, text, at)
}

#[cycle(survey)]
fn by_front<T: NumberedTypes>(
    types: &T,
    number: Option<usize>,
    below: usize,
    text: &[u8],
    at: usize,
) -> Option<Look>
    ensures { front_by (T.seen types.now) below (look_by (T.seen types.now) below) number (drop at text.now) ≡ placed text.now result }
{
    match front(text, at)? {
        b'[' => array(types, form_if(types, number), below, text, at),
        b'{' => stream(types, form_if(types, number), below, text, at),
        b'<' => record(types, number, below, text, at),
        b'(' => union(types, number, below, text, at),
        b'"' => quoted(types, form_if(types, number), below, text, at),
        _ => scalar(form_if(types, number), text, at),
    }
}

/// Parts up to the closing byte: how many, and the leftmost misfit. Each has one type, if one is asked
/// for, or that of the member of a record.
#[cycle(survey)]
#[tactic(auto, unfolding(crate::specs::SurveyingBy::parts_look_by))]
fn parts<T: NumberedTypes>(
    types: &T,
    each: Option<usize>,
    of: Option<usize>,
    levels: usize,
    close: u8,
    most: usize,
    text: &[u8],
    from: usize,
) -> Option<((usize, Option<usize>), usize)>
    ensures { parts_look_by (look_by (T.seen types.now) levels) each (fields_if (T.seen types.now) of) close most 0 (drop from text.now) ≡ placed text.now result }
{
    let mut misfit = None;
    let mut at = from;
    for count in 0..most {
        if let Some(end) = sign(text, at, close) {
            return Some(((count, misfit), end));
        }
        let (inside, behind) = survey_by(types, type_at(types, each, of, count), levels, text, at)?;
        misfit = first(misfit, inside);
        at = skip(text, behind);
    }
    let end = sign(text, at, close)?;
    Some(((most, misfit), end))
}

#[cycle(survey)]
#[tactic(auto, unfolding(crate::specs::SurveyingBy::array_look_by))]
fn array<T: NumberedTypes>(
    types: &T,
    form: Option<TypeForm>,
    below: usize,
    text: &[u8],
    at: usize,
) -> Option<Look>
    ensures { array_look_by (look_by (T.seen types.now) below) form (drop at text.now) ≡ placed text.now result }
{
    let (lo, behind) = bound(text, at)?;
    let ((count, inside), end) = parts(
        types,
        element_of(form),
        None,
        below,
        b']',
        MOST_ELEMENTS,
        text,
        skip(text, behind),
    )?;
    if !array_fits(lo, count) {
        return None;
    }
    Some((unless_own(is_array(form), text, at, inside), end))
}

#[cycle(survey)]
#[tactic(auto, unfolding(crate::specs::SurveyingBy::stream_look_by))]
fn stream<T: NumberedTypes>(
    types: &T,
    form: Option<TypeForm>,
    below: usize,
    text: &[u8],
    at: usize,
) -> Option<Look>
    ensures { stream_look_by (look_by (T.seen types.now) below) form (drop at text.now) ≡ placed text.now result }
{
    let open = sign(text, at, b'{')?;
    let ((_, inside), end) = parts(
        types,
        item_of(form),
        None,
        below,
        b'}',
        MOST_ELEMENTS,
        text,
        skip(text, open),
    )?;
    Some((unless_own(is_stream(form), text, at, inside), end))
}

#[cycle(survey)]
#[tactic(auto, unfolding(crate::specs::SurveyingBy::record_look_by))]
fn record<T: NumberedTypes>(
    types: &T,
    number: Option<usize>,
    below: usize,
    text: &[u8],
    at: usize,
) -> Option<Look>
    ensures { record_look_by (T.seen types.now) (look_by (T.seen types.now) below) number (drop at text.now) ≡ placed text.now result }
{
    let open = sign(text, at, b'<')?;
    let ((count, inside), end) = parts(
        types,
        None,
        number,
        below,
        b'>',
        MOST_ELEMENTS,
        text,
        skip(text, open),
    )?;
    Some((
        unless_own(is_record(types, number, count), text, at, inside),
        end,
    ))
}

#[cycle(survey)]
#[tactic(auto, unfolding(crate::specs::SurveyingBy::union_look_by))]
fn union<T: NumberedTypes>(
    types: &T,
    number: Option<usize>,
    below: usize,
    text: &[u8],
    at: usize,
) -> Option<Look>
    ensures { union_look_by (T.seen types.now) (look_by (T.seen types.now) below) number (drop at text.now) ≡ placed text.now result }
{
    let (n, behind) = tag(text, at)?;
    let n = narrow_tag(n)?;
    let (inside, last) = survey_by(
        types,
        content_of(types, number, n),
        below,
        text,
        skip(text, behind),
    )?;
    let end = sign(text, skip(text, last), b')')?;
    Some((
        unless_own(is_union(types, number, n), text, at, inside),
        end,
    ))
}
