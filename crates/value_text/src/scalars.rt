//! Errors, scalars and texts, each read at a place of the text.
ghost use Rattle.std.specs.Prelude.{◌≡◌, ◌+◌, ◌<◌, ◌≤◌, ℕ, IfOk, IfSome, option_map, drop, length, Some, None};
ghost use Rattle.value_text.specs.Tokens.{placed, sign_in, past_blanks};
ghost use Rattle.value_text.specs.Reading.{cause_in, cause_after, closed_error, error_in, int_in, bool_in, null_in, char_in, array_of, text_in, many_in, no_gap, char_item, has_room, bound_in, tag_in, small_tag};

use crate::token::{integer, item, number, sign, skip, word};
use flow_value::{Cause, Items, Span, Val};

/// The cause of an error that stands at a place.
fn cause(text: &[u8], at: usize) -> Option<(Cause, usize)>
    ensures { cause_in (drop at text.now) ≡ placed text.now result }
{
    if let Some(end) = word(text, at, b"overflow") {
        return Some((Cause::Overflow, end));
    }
    if let Some(end) = word(text, at, b"zero") {
        return Some((Cause::Zero, end));
    }
    if let Some(end) = word(text, at, b"bounds") {
        return Some((Cause::Bounds, end));
    }
    if let Some(end) = word(text, at, b"empty") {
        return Some((Cause::Empty, end));
    }
    if let Some(end) = word(text, at, b"size") {
        return Some((Cause::Size, end));
    }
    if let Some(end) = word(text, at, b"tag") {
        return Some((Cause::Tag, end));
    }
    let end = word(text, at, b"explicit")?;
    Some((Cause::Explicit, end))
}

fn cause_behind(text: &[u8], at: usize) -> Option<(Cause, usize)>
    ensures { cause_after (drop at text.now) ≡ placed text.now result }
{
    let open = sign(text, skip(text, at), b'(')?;
    cause(text, skip(text, open))
}

fn closed(text: &[u8], at: usize, found: Option<(Cause, usize)>) -> Option<(Val, usize)>
    ensures { closed_error (drop at text.now) (placed text.now found) ≡ placed text.now result }
{
    match found {
        None => Some((Val::Err(Cause::Explicit), at)),
        Some((cause, behind)) => {
            let end = sign(text, skip(text, behind), b')')?;
            Some((Val::Err(cause), end))
        }
    }
}

/// The error value at a place.
#[tactic(auto, unfolding(crate::specs::Reading::error_in))]
pub fn error(text: &[u8], at: usize) -> Option<(Val, usize)>
    ensures { error_in (drop at text.now) ≡ placed text.now result }
{
    let behind = word(text, at, b"error")?;
    closed(text, behind, cause_behind(text, behind))
}

/// The integer at a place.
#[tactic(auto, unfolding(crate::specs::Reading::int_in))]
pub fn int(text: &[u8], at: usize) -> Option<(Val, usize)>
    ensures { int_in (drop at text.now) ≡ placed text.now result }
{
    let (n, end) = integer(text, at)?;
    Some((Val::Int(n), end))
}

/// The boolean at a place.
#[tactic(auto, unfolding(crate::specs::Reading::bool_in))]
pub fn boolean(text: &[u8], at: usize) -> Option<(Val, usize)>
    ensures { bool_in (drop at text.now) ≡ placed text.now result }
{
    if let Some(end) = word(text, at, b"T") {
        return Some((Val::Bool(true), end));
    }
    let end = word(text, at, b"F")?;
    Some((Val::Bool(false), end))
}

/// The word `nil` at a place.
#[tactic(auto, unfolding(crate::specs::Reading::null_in))]
pub fn null(text: &[u8], at: usize) -> Option<(Val, usize)>
    ensures { null_in (drop at text.now) ≡ placed text.now result }
{
    let end = word(text, at, b"nil")?;
    Some((Val::Null, end))
}

/// The character at a place.
#[tactic(auto, unfolding(crate::specs::Reading::char_in))]
pub fn character(text: &[u8], at: usize) -> Option<(Val, usize)>
    ensures { char_in (drop at text.now) ≡ placed text.now result }
{
    let open = sign(text, at, b'\'')?;
    let (c, behind) = item(text, open, b'\'')?;
    let end = sign(text, behind, b'\'')?;
    Some((Val::Char(c), end))
}

/// The lower bound of the array that begins at a place.
pub fn bound(text: &[u8], at: usize) -> Option<(i64, usize)>
    ensures { bound_in (drop at text.now) ≡ placed text.now result }
{
    let open = sign(text, at, b'[')?;
    let (lo, behind) = integer(text, skip(text, open))?;
    let end = sign(text, skip(text, behind), b':')?;
    Some((lo, end))
}

/// The tag's number of the union that begins at a place.
pub fn tag(text: &[u8], at: usize) -> Option<(u64, usize)>
    ensures { tag_in (drop at text.now) ≡ placed text.now result }
{
    let open = sign(text, at, b'(')?;
    let (n, behind) = number(text, skip(text, open))?;
    let end = sign(text, skip(text, behind), b':')?;
    Some((n, end))
}

/// The tag, where it has 32 bits.
pub fn small(n: u64) -> Option<u32>
    ensures { small_tag n ≡ result }
{
    u32::try_from(n).ok()
}

/// The array of these elements, where the limits allow it.
pub fn array_of(lo: i64, items: Items) -> Option<Val>
    ensures { array_of lo items ≡ result }
{
    match Span::new(lo, items) {
        Ok(array) => Some(Val::Arr(array)),
        Err(_) => None,
    }
}
