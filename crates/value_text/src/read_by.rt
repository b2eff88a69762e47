//! What a text spells at a type by its number.
ghost use Rattle.std.specs.Prelude.{◌≡◌, ℕ, IfOk, MatchResult, Err, None, length, drop, slice_get};
ghost use Rattle.value_text.specs.Tokens.{placed, past_blanks};
ghost use Rattle.value_text.specs.Reading.{array_in, many_in, stream_in};
ghost use Rattle.value_text.specs.Numbered.{StandsFor};
ghost use Rattle.value_text.specs.ReadingBy.{members_by, record_by, content_by, union_by, text_by, form_by, part_by, value_by, text_value_by};
ghost use Rattle.value_text.specs.Grammar.{reads_value};
ghost use Rattle.value_text.specs.Forms.{IsValueText, FirstBad};
ghost use Rattle.value_text.specs.Faults.{PastLimits, MisfitAt, Explains, IsCause};
ghost use Rattle.flow_value.specs.declared.value.Val.{Val};
ghost use Rattle.flow_value.specs.declared.ty.Ty.{Ty};

use crate::fault::ValueFault;
use crate::numbered::NumberedTypes;
use crate::read::quoted;
use crate::scalars::{array_of, boolean, bound, character, error, int, null, small, tag};
use crate::spelling::first_bad;
use crate::survey_by::survey_by;
use crate::token::{front, sign, skip};
use crate::type_form::TypeForm;
use flow_value::{Held, Items, MOST_ELEMENTS, NoMemory, Val};
use std::alloc::Global;

/// The value at a place, with so many levels below it.
#[cycle(value)]
fn value<T: NumberedTypes>(
    alloc: Global,
    types: &T,
    number: usize,
    below: usize,
    text: &[u8],
    at: usize,
) -> Result<Option<(Val, usize)>, NoMemory>
    ensures { IfOk result (λ found. value_by (T.seen types.now) below number (drop at text.now) ≡ placed text.now found) }
{
    match typed(alloc, types, number, below, text, at)? {
        Some(found) => Ok(Some(found)),
        None => Ok(error(text, at)),
    }
}

#[cycle(value)]
fn typed<T: NumberedTypes>(
    alloc: Global,
    types: &T,
    number: usize,
    below: usize,
    text: &[u8],
    at: usize,
) -> Result<Option<(Val, usize)>, NoMemory>
    ensures { IfOk result (λ found. form_by (T.seen types.now) below (part_by (T.seen types.now) below) number ((T.seen types.now).form number) (drop at text.now) ≡ placed text.now found) }
{
    match types.form_of(number) {
        TypeForm::Nothing => Ok(None),
        TypeForm::Integer => Ok(int(text, at)),
        TypeForm::Boolean => Ok(boolean(text, at)),
        TypeForm::Character => Ok(character(text, at)),
        TypeForm::Null => Ok(null(text, at)),
        TypeForm::Array(element) => match array(alloc, types, element, below, text, at)? {
            Some(found) => Ok(Some(found)),
            None => text_of(alloc, types.form_of(element), below, text, at),
        },
        TypeForm::Stream(element) => stream(alloc, types, element, below, text, at),
        TypeForm::Record => record(alloc, types, number, below, text, at),
        TypeForm::Union => union(alloc, types, number, below, text, at),
    }
}

/// A part, where so many levels are left.
#[cycle(value)]
fn part<T: NumberedTypes>(
    alloc: Global,
    types: &T,
    number: usize,
    levels: usize,
    text: &[u8],
    at: usize,
) -> Result<Option<(Val, usize)>, NoMemory>
    ensures { IfOk result (λ found. part_by (T.seen types.now) levels number (drop at text.now) ≡ placed text.now found) }
{
    if levels == 0 {
        return Ok(None);
    }
    value(alloc, types, number, levels - 1, text, at)
}

#[cycle(value)]
#[tactic(auto, unfolding(crate::specs::Reading::many_in))]
fn parts<T: NumberedTypes>(
    alloc: Global,
    types: &T,
    element: usize,
    levels: usize,
    close: u8,
    most: usize,
    text: &[u8],
    from: usize,
) -> Result<Option<(Items, usize)>, NoMemory>
    ensures { IfOk result (λ found. many_in past_blanks (part_by (T.seen types.now) levels element) close most (drop from text.now) ≡ placed text.now found) }
{
    let mut items = Items::new(alloc);
    let mut at = from;
    for _ in 0..most {
        if let Some(end) = sign(text, at, close) {
            return Ok(Some((items, end)));
        }
        let Some((v, behind)) = part(alloc, types, element, levels, text, at)? else {
            return Ok(None);
        };
        items.add(v)?;
        at = skip(text, behind);
    }
    match sign(text, at, close) {
        Some(end) => Ok(Some((items, end))),
        None => Ok(None),
    }
}

/// A value for each member of a type.
#[cycle(value)]
fn members_of<T: NumberedTypes>(
    alloc: Global,
    types: &T,
    number: usize,
    levels: usize,
    text: &[u8],
    from: usize,
) -> Result<Option<(Items, usize)>, NoMemory>
    ensures { IfOk result (λ found. members_by (part_by (T.seen types.now) levels) ((T.seen types.now).members number) (drop from text.now) ≡ placed text.now found) }
{
    let mut items = Items::new(alloc);
    let mut at = from;
    for i in 0..types.count_of(number) {
        let Some(member) = types.member_of(number, i) else {
            unreachable!();
        };
        let Some((v, behind)) = part(alloc, types, member, levels, text, skip(text, at))? else {
            return Ok(None);
        };
        items.add(v)?;
        at = behind;
    }
    Ok(Some((items, at)))
}

#[cycle(value)]
#[tactic(auto, unfolding(crate::specs::Reading::array_in))]
fn array<T: NumberedTypes>(
    alloc: Global,
    types: &T,
    element: usize,
    below: usize,
    text: &[u8],
    at: usize,
) -> Result<Option<(Val, usize)>, NoMemory>
    ensures { IfOk result (λ found. array_in (part_by (T.seen types.now) below element) (drop at text.now) ≡ placed text.now found) }
{
    let Some((lo, behind)) = bound(text, at) else {
        return Ok(None);
    };
    let Some((items, end)) = parts(
        alloc,
        types,
        element,
        below,
        b']',
        MOST_ELEMENTS,
        text,
        skip(text, behind),
    )?
    else {
        return Ok(None);
    };
    let Some(v) = array_of(lo, items) else {
        return Ok(None);
    };
    Ok(Some((v, end)))
}

#[cycle(value)]
#[tactic(auto, unfolding(crate::specs::Reading::stream_in))]
fn stream<T: NumberedTypes>(
    alloc: Global,
    types: &T,
    element: usize,
    below: usize,
    text: &[u8],
    at: usize,
) -> Result<Option<(Val, usize)>, NoMemory>
    ensures { IfOk result (λ found. stream_in (part_by (T.seen types.now) below element) (drop at text.now) ≡ placed text.now found) }
{
    let Some(open) = sign(text, at, b'{') else {
        return Ok(None);
    };
    let Some((items, end)) = parts(
        alloc,
        types,
        element,
        below,
        b'}',
        MOST_ELEMENTS,
        text,
        skip(text, open),
    )?
    else {
        return Ok(None);
    };
    Ok(Some((Val::Stream(items), end)))
}

#[cycle(value)]
#[tactic(auto, unfolding(crate::specs::ReadingBy::record_by))]
fn record<T: NumberedTypes>(
    alloc: Global,
    types: &T,
    number: usize,
    below: usize,
    text: &[u8],
    at: usize,
) -> Result<Option<(Val, usize)>, NoMemory>
    ensures { IfOk result (λ found. record_by (part_by (T.seen types.now) below) ((T.seen types.now).members number) (drop at text.now) ≡ placed text.now found) }
{
    if types.count_of(number) > MOST_ELEMENTS {
        return Ok(None);
    }
    let Some(open) = sign(text, at, b'<') else {
        return Ok(None);
    };
    let Some((items, behind)) = members_of(alloc, types, number, below, text, open)? else {
        return Ok(None);
    };
    let Some(end) = sign(text, skip(text, behind), b'>') else {
        return Ok(None);
    };
    Ok(Some((Val::Rec(items), end)))
}

#[cycle(value)]
#[tactic(auto, unfolding(crate::specs::ReadingBy::union_by))]
fn union<T: NumberedTypes>(
    alloc: Global,
    types: &T,
    number: usize,
    below: usize,
    text: &[u8],
    at: usize,
) -> Result<Option<(Val, usize)>, NoMemory>
    ensures { IfOk result (λ found. union_by (part_by (T.seen types.now) below) ((T.seen types.now).members number) (drop at text.now) ≡ placed text.now found) }
{
    let Some((n, behind)) = tag(text, at) else {
        return Ok(None);
    };
    let Some(n) = small(n) else {
        return Ok(None);
    };
    content(alloc, types, number, n, below, text, behind)
}

#[cycle(value)]
fn content<T: NumberedTypes>(
    alloc: Global,
    types: &T,
    number: usize,
    n: u32,
    below: usize,
    text: &[u8],
    at: usize,
) -> Result<Option<(Val, usize)>, NoMemory>
    ensures { IfOk result (λ found. content_by (part_by (T.seen types.now) below) n (slice_get ((T.seen types.now).members number) n) (drop at text.now) ≡ placed text.now found) }
{
    let Some(member) = types.member_of(number, n as usize) else {
        return Ok(None);
    };
    let Some((v, behind)) = part(alloc, types, member, below, text, skip(text, at))? else {
        return Ok(None);
    };
    let Some(end) = sign(text, skip(text, behind), b')') else {
        return Ok(None);
    };
    Ok(Some((Val::Uni(n, Held::new(alloc, v)?), end)))
}

/// The text at a place, where the elements are characters.
fn text_of(
    alloc: Global,
    element: TypeForm,
    below: usize,
    text: &[u8],
    at: usize,
) -> Result<Option<(Val, usize)>, NoMemory>
    ensures { IfOk result (λ found. text_by below element (drop at text.now) ≡ placed text.now found) }
{
    match element {
        TypeForm::Character => quoted(alloc, below, text, at),
        _ => Ok(None),
    }
}

/// The value that the whole text spells at the type of a number, if it spells one.
fn read<T: NumberedTypes>(
    alloc: Global,
    text: &[u8],
    types: &T,
    number: usize,
) -> Result<Option<Val>, NoMemory>
    ensures { IfOk result (λ found. text_value_by text.now (T.seen types.now) number ≡ found) }
{
    let Some((v, end)) = value(alloc, types, number, 63, text, skip(text, 0))? else {
        return Ok(None);
    };
    match front(text, skip(text, end)) {
        None => Ok(Some(v)),
        Some(_) => Ok(None),
    }
}

/// Why a value text is no value of the type of a number.
fn shape_fault<T: NumberedTypes>(text: &[u8], types: &T, number: usize) -> ValueFault
    requires spelled { IsValueText text.now }
    requires unread { text_value_by text.now (T.seen types.now) number ≡ None }
    ensures { (ty : Ty) → StandsFor (T.seen types.now) number ty → Explains text.now ty result }
{
    match survey_by(types, Some(number), 64, text, skip(text, 0)) {
        None => ValueFault::TooLarge,
        Some((misfit, _)) => ValueFault::WrongShape(text.len().saturating_sub(misfit.unwrap_or(0))),
    }
}

/// Why the text is no value of the type of a number.
fn fault_of<T: NumberedTypes>(alloc: Global, text: &[u8], types: &T, number: usize) -> ValueFault
    requires unread { text_value_by text.now (T.seen types.now) number ≡ None }
    ensures { (ty : Ty) → StandsFor (T.seen types.now) number ty → IsCause text.now ty result }
{
    match first_bad(alloc, text) {
        Err(_) => ValueFault::NoMemory,
        Ok(Some(byte)) => ValueFault::BadSpelling(byte),
        Ok(None) => shape_fault(text, types, number),
    }
}

/// The value that the text spells at the type of a number, or why it spells none. No type is written
/// out, so the memory is that of the value.
pub fn read_value_by<T: NumberedTypes>(
    alloc: Global,
    text: &[u8],
    types: &T,
    number: usize,
) -> Result<Val, ValueFault>
    // What is read is in the grammar.
    ensures ok { (ty : Ty) → StandsFor (T.seen types.now) number ty → IfOk result (λ v. reads_value text.now ty v) }
    // What is in the grammar is read, unless memory runs out.
    ensures only { (ty : Ty) (v : Val) → StandsFor (T.seen types.now) number ty → reads_value text.now ty v → MatchResult
        result
        (λ w. w ≡ v)
        (λ e. e ≡ ValueFault.NoMemory) }
    // No value text: some begins with the first k bytes, and none with one more, or the text ends.
    ensures bad_spelling { (ty : Ty) (k : ℕ) → StandsFor (T.seen types.now) number ty → result ≡ Err (ValueFault.BadSpelling k) → FirstBad text.now k }
    // A value text past a limit.
    ensures too_large { (ty : Ty) → StandsFor (T.seen types.now) number ty → result ≡ Err ValueFault.TooLarge → PastLimits text.now }
    // A value text within the limits whose leftmost part of another form begins at byte k.
    ensures wrong_shape { (ty : Ty) (k : ℕ) → StandsFor (T.seen types.now) number ty → result ≡ Err (ValueFault.WrongShape k) → MisfitAt text.now ty k }
{
    match read(alloc, text, types, number)? {
        Some(v) => Ok(v),
        None => Err(fault_of(alloc, text, types, number)),
    }
}
