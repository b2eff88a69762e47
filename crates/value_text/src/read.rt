//! What a text spells at a type.
ghost use Rattle.std.specs.Prelude.{◌≡◌, ◌+◌, ◌<◌, ◌≤◌, ℕ, IfOk, MatchResult, Err, Some, None, IsTrue, List, drop, length, slice_get};
ghost use Rattle.std.specs.Option.{option_copied};
ghost use Rattle.value_text.specs.Tokens.{placed, past_blanks};
ghost use Rattle.value_text.specs.Reading.{value_in, part_in, many_in, fields_in, array_in, stream_in, record_in, union_in, content_in, typed_in, text_in, text_at, no_gap, char_item, text_value};
ghost use Rattle.value_text.specs.Grammar.{reads_value};
ghost use Rattle.value_text.specs.Nesting.{nesting, has_small_tags};
ghost use Rattle.value_text.specs.Printed.{value_bytes};
ghost use Rattle.value_text.specs.Forms.{IsValueText, FirstBad};
ghost use Rattle.value_text.specs.Faults.{PastLimits, MisfitAt, IsOfType, Explains, IsCause};
ghost use Rattle.flow_value.specs.Well.{is_well};
ghost use Rattle.flow_value.specs.declared.value.Val.{Val};
ghost use Rattle.flow_value.specs.declared.ty.Ty.{Ty};
ghost use Rattle.flow_value.specs.declared.ty.Ty.TheViews.{out-Ty};

use crate::fault::ValueFault;
use crate::scalars::{array_of, boolean, bound, character, error, int, null, small, tag};
use crate::spelling::first_bad;
use crate::survey::survey;
use crate::token::{front, item, sign, skip};
use flow_value::{Held, Items, MOST_ELEMENTS, Name, NoMemory, Ty, Val, item_at};
use std::alloc::Global;

/// The value at a place, with so many levels below it.
#[cycle(value)]
fn value(
    alloc: Global,
    ty: &Ty,
    below: usize,
    text: &[u8],
    at: usize,
) -> Result<Option<(Val, usize)>, NoMemory>
    ensures { IfOk result (λ found. value_in below ty.now (drop at text.now) ≡ placed text.now found) }
{
    match typed(alloc, ty, below, text, at)? {
        Some(found) => Ok(Some(found)),
        None => Ok(error(text, at)),
    }
}

#[cycle(value)]
fn typed(
    alloc: Global,
    ty: &Ty,
    below: usize,
    text: &[u8],
    at: usize,
) -> Result<Option<(Val, usize)>, NoMemory>
    ensures { IfOk result (λ found. typed_in below (part_in below) (out-Ty ty.now) (drop at text.now) ≡ placed text.now found) }
{
    match ty {
        Ty::Int => Ok(int(text, at)),
        Ty::Bool => Ok(boolean(text, at)),
        Ty::Char => Ok(character(text, at)),
        Ty::Null => Ok(null(text, at)),
        Ty::Arr(element) => match array(alloc, element.get(), below, text, at)? {
            Some(found) => Ok(Some(found)),
            None => text_of(alloc, element.get(), below, text, at),
        },
        Ty::Stream(element) => stream(alloc, element.get(), below, text, at),
        Ty::Rec(fields) => record(alloc, fields.as_slice(), below, text, at),
        Ty::Uni(tags) => union(alloc, tags.as_slice(), below, text, at),
    }
}

/// A part, where so many levels are left.
#[cycle(value)]
fn part(
    alloc: Global,
    ty: &Ty,
    levels: usize,
    text: &[u8],
    at: usize,
) -> Result<Option<(Val, usize)>, NoMemory>
    ensures { IfOk result (λ found. part_in levels ty.now (drop at text.now) ≡ placed text.now found) }
{
    if levels == 0 {
        return Ok(None);
    }
    value(alloc, ty, levels - 1, text, at)
}

#[cycle(value)]
#[tactic(auto, unfolding(crate::specs::Reading::many_in))]
fn parts(
    alloc: Global,
    ty: &Ty,
    levels: usize,
    close: u8,
    most: usize,
    text: &[u8],
    from: usize,
) -> Result<Option<(Items, usize)>, NoMemory>
    ensures { IfOk result (λ found. many_in past_blanks (part_in levels ty.now) close most (drop from text.now) ≡ placed text.now found) }
{
    let mut items = Items::new(alloc);
    let mut at = from;
    for _ in 0..most {
        if let Some(end) = sign(text, at, close) {
            return Ok(Some((items, end)));
        }
        let Some((v, behind)) = part(alloc, ty, levels, text, at)? else {
            return Ok(None);
        };
        items.add(v)?;
        at = skip(text, behind);
    }
    match sign(text, at, close) {
        Some(end) => Ok(Some((items, end))),
        None => Ok(None),
    }
}

#[cycle(value)]
fn fields_of(
    alloc: Global,
    fields: &[(Name, Ty)],
    levels: usize,
    text: &[u8],
    from: usize,
) -> Result<Option<(Items, usize)>, NoMemory>
    ensures { IfOk result (λ found. fields_in (part_in levels) fields.now (drop from text.now) ≡ placed text.now found) }
{
    let mut items = Items::new(alloc);
    let mut at = from;
    for i in 0..fields.len() {
        let (_, ty) = &fields[i];
        let Some((v, behind)) = part(alloc, ty, levels, text, skip(text, at))? else {
            return Ok(None);
        };
        items.add(v)?;
        at = behind;
    }
    Ok(Some((items, at)))
}

#[cycle(value)]
#[tactic(auto, unfolding(crate::specs::Reading::array_in))]
fn array(
    alloc: Global,
    element: &Ty,
    below: usize,
    text: &[u8],
    at: usize,
) -> Result<Option<(Val, usize)>, NoMemory>
    ensures { IfOk result (λ found. array_in (part_in below element.now) (drop at text.now) ≡ placed text.now found) }
{
    let Some((lo, behind)) = bound(text, at) else {
        return Ok(None);
    };
    let Some((items, end)) = parts(
        alloc,
        element,
        below,
        b']',
        MOST_ELEMENTS,
        text,
        skip(text, behind),
    )?
    else {
        return Ok(None);
    };
    let Some(v) = array_of(lo, items) else {
        return Ok(None);
    };
    Ok(Some((v, end)))
}

#[cycle(value)]
#[tactic(auto, unfolding(crate::specs::Reading::stream_in))]
fn stream(
    alloc: Global,
    element: &Ty,
    below: usize,
    text: &[u8],
    at: usize,
) -> Result<Option<(Val, usize)>, NoMemory>
    ensures { IfOk result (λ found. stream_in (part_in below element.now) (drop at text.now) ≡ placed text.now found) }
{
    let Some(open) = sign(text, at, b'{') else {
        return Ok(None);
    };
    let Some((items, end)) = parts(
        alloc,
        element,
        below,
        b'}',
        MOST_ELEMENTS,
        text,
        skip(text, open),
    )?
    else {
        return Ok(None);
    };
    Ok(Some((Val::Stream(items), end)))
}

#[cycle(value)]
#[tactic(auto, unfolding(crate::specs::Reading::record_in))]
fn record(
    alloc: Global,
    fields: &[(Name, Ty)],
    below: usize,
    text: &[u8],
    at: usize,
) -> Result<Option<(Val, usize)>, NoMemory>
    ensures { IfOk result (λ found. record_in (part_in below) fields.now (drop at text.now) ≡ placed text.now found) }
{
    if fields.len() > MOST_ELEMENTS {
        return Ok(None);
    }
    let Some(open) = sign(text, at, b'<') else {
        return Ok(None);
    };
    let Some((items, behind)) = fields_of(alloc, fields, below, text, open)? else {
        return Ok(None);
    };
    let Some(end) = sign(text, skip(text, behind), b'>') else {
        return Ok(None);
    };
    Ok(Some((Val::Rec(items), end)))
}

#[cycle(value)]
#[tactic(auto, unfolding(crate::specs::Reading::union_in))]
fn union(
    alloc: Global,
    tags: &[(Name, Ty)],
    below: usize,
    text: &[u8],
    at: usize,
) -> Result<Option<(Val, usize)>, NoMemory>
    ensures { IfOk result (λ found. union_in (part_in below) tags.now (drop at text.now) ≡ placed text.now found) }
{
    let Some((n, behind)) = tag(text, at) else {
        return Ok(None);
    };
    let Some(n) = small(n) else {
        return Ok(None);
    };
    content(alloc, tags, n, below, text, behind)
}

#[cycle(value)]
fn content(
    alloc: Global,
    tags: &[(Name, Ty)],
    n: u32,
    below: usize,
    text: &[u8],
    at: usize,
) -> Result<Option<(Val, usize)>, NoMemory>
    ensures { IfOk result (λ found. content_in (part_in below) n (slice_get tags.now n) (drop at text.now) ≡ placed text.now found) }
{
    let Some((_, ty)) = item_at(tags, n as usize) else {
        return Ok(None);
    };
    let Some((v, behind)) = part(alloc, ty, below, text, skip(text, at))? else {
        return Ok(None);
    };
    let Some(end) = sign(text, skip(text, behind), b')') else {
        return Ok(None);
    };
    Ok(Some((Val::Uni(n, Held::new(alloc, v)?), end)))
}

/// The text at a place, where the elements are characters.
fn text_of(
    alloc: Global,
    element: &Ty,
    below: usize,
    text: &[u8],
    at: usize,
) -> Result<Option<(Val, usize)>, NoMemory>
    ensures { IfOk result (λ found. text_at below (out-Ty element.now) (drop at text.now) ≡ placed text.now found) }
{
    match element {
        Ty::Char => quoted(alloc, below, text, at),
        _ => Ok(None),
    }
}

#[tactic(auto, unfolding(crate::specs::Reading::text_in))]
pub(crate) fn quoted(
    alloc: Global,
    below: usize,
    text: &[u8],
    at: usize,
) -> Result<Option<(Val, usize)>, NoMemory>
    ensures { IfOk result (λ found. text_in below (drop at text.now) ≡ placed text.now found) }
{
    let Some(open) = sign(text, at, b'"') else {
        return Ok(None);
    };
    let Some((items, end)) = characters(alloc, MOST_ELEMENTS, text, open)? else {
        return Ok(None);
    };
    if below == 0 && !items.is_empty() {
        return Ok(None);
    }
    let Some(v) = array_of(1, items) else {
        return Ok(None);
    };
    Ok(Some((v, end)))
}

#[tactic(auto, unfolding(crate::specs::Reading::many_in))]
fn characters(
    alloc: Global,
    most: usize,
    text: &[u8],
    from: usize,
) -> Result<Option<(Items, usize)>, NoMemory>
    ensures { IfOk result (λ found. many_in no_gap char_item 34 most (drop from text.now) ≡ placed text.now found) }
{
    let mut items = Items::new(alloc);
    let mut at = from;
    for _ in 0..most {
        if let Some(end) = sign(text, at, b'"') {
            return Ok(Some((items, end)));
        }
        let Some((c, behind)) = item(text, at, b'"') else {
            return Ok(None);
        };
        items.add(Val::Char(c))?;
        at = behind;
    }
    match sign(text, at, b'"') {
        Some(end) => Ok(Some((items, end))),
        None => Ok(None),
    }
}

/// The value that the whole text spells at the type, if it spells one.
fn read(alloc: Global, text: &[u8], ty: &Ty) -> Result<Option<Val>, NoMemory>
    ensures { IfOk result (λ found. text_value text.now ty.now ≡ found) }
{
    let Some((v, end)) = value(alloc, ty, 63, text, skip(text, 0))? else {
        return Ok(None);
    };
    match front(text, skip(text, end)) {
        None => Ok(Some(v)),
        Some(_) => Ok(None),
    }
}

/// Why a value text is no value of the type.
fn shape_fault(text: &[u8], ty: &Ty) -> ValueFault
    requires spelled { IsValueText text.now }
    requires unread { text_value text.now ty.now ≡ None }
    ensures { Explains text.now ty.now result }
{
    match survey(Some(ty), 64, text, skip(text, 0)) {
        None => ValueFault::TooLarge,
        Some((misfit, _)) => ValueFault::WrongShape(text.len().saturating_sub(misfit.unwrap_or(0))),
    }
}

/// Why the text is no value of the type.
fn fault_of(alloc: Global, text: &[u8], ty: &Ty) -> ValueFault
    requires unread { text_value text.now ty.now ≡ None }
    ensures { IsCause text.now ty.now result }
{
    match first_bad(alloc, text) {
        Err(_) => ValueFault::NoMemory,
        Ok(Some(byte)) => ValueFault::BadSpelling(byte),
        Ok(None) => shape_fault(text, ty),
    }
}

/// The value that the text spells at the type, or why it spells none. Blanks may stand before and
/// after every token.
pub fn read_value(alloc: Global, text: &[u8], ty: &Ty) -> Result<Val, ValueFault>
    // What is read is in the grammar.
    ensures ok { IfOk result (λ v. reads_value text.now ty.now v) }
    // What is in the grammar is read, unless memory runs out.
    ensures only { (v : Val) → reads_value text.now ty.now v → MatchResult
        result
        (λ w. w ≡ v)
        (λ e. e ≡ ValueFault.NoMemory) }
    // No value text: some begins with the first k bytes, and none with one more, or the text ends.
    ensures bad_spelling { (k : ℕ) → result ≡ Err (ValueFault.BadSpelling k) → FirstBad text.now k }
    // A value text past a limit.
    ensures too_large { result ≡ Err ValueFault.TooLarge → PastLimits text.now }
    // A value text within the limits whose leftmost part of another form begins at byte k.
    ensures wrong_shape { (k : ℕ) → result ≡ Err (ValueFault.WrongShape k) → MisfitAt text.now ty.now k }
{
    match read(alloc, text, ty)? {
        Some(v) => Ok(v),
        None => Err(fault_of(alloc, text, ty)),
    }
}

/// A text spells one value at a type.
pub fn spells_one_value()
    ensures { (text : List ℕ) (ty : Ty) (v w : Val) → reads_value text ty v → reads_value text ty w → v ≡ w }
{}

/// A well typed value of at most 64 levels is read from what is printed of it. Its tags have 32 bits,
/// as those of every `Val` have.
pub fn printed_is_read()
    ensures { (ty : Ty) (v : Val) → IsTrue (is_well ty v) → nesting v ≤ 64 → IsTrue (has_small_tags v) → reads_value (value_bytes v) ty v }
{}

/// What spells a value of a type is a value text within the limits, each part of its type's form; so
/// no text that has a fault spells a value.
pub fn read_texts_fit()
    ensures { (bytes : List ℕ) (ty : Ty) (v : Val) → reads_value bytes ty v → IsOfType bytes ty }
{}
