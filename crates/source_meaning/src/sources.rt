//! The generators of a loop.
ghost use Rattle.std.specs.Prelude.{◌≡◌, ◌++◌, drop, unwrap_or, IfOk, OnOk};
ghost use Rattle.std.specs.Option.{option_copied};
ghost use Rattle.flow_value.specs.declared.value.Val.TheVariants as val;
ghost use Rattle.flow_value.specs.declared.value.Val.TheViews.{out-Val};
ghost use Rattle.flow_value.specs.declared.cause.Cause.TheVariants as cause;
ghost use Rattle.meaning.specs.Words.{value_at};
ghost use Rattle.source_meaning.specs.Slots.{slot_values};
ghost use Rattle.meaning.specs.Sources.{width, up_to, range_size, list_size, size_of, sizes_of, first_failure, are_size, common, places_of, number_in, element_at, index_in, names_of, names_at, lower_of};

use crate::slots::{Slot, lent};
use flow_value::{Cause, Items, NoMemory, Seq, Val, copy, item_at, whole};
use meaning::Places;
use std::alloc::Global;
use typed_tree::Source;

/// The bounds that are left behind those of a generator.
fn behind(source: Source, bounds: &[Slot]) -> &[Slot]
    ensures { result.now ≡ drop (width source) bounds.now }
{
    match (source, bounds) {
        (Source::Range, [_, _, rest @ ..]) => rest,
        (Source::Elements | Source::Indexed, [_, rest @ ..]) => rest,
        _ => &[],
    }
}

/// The value of the bound at a place, counted from 0.
fn bound<'a>(names: &'a [Val], bounds: &'a [Slot], place: usize, missing: &'a Val) -> &'a Val
    requires { missing.now ≡ val.Err cause.Explicit }
    ensures { result.now ≡ value_at (slot_values names.now bounds.now) place }
{
    match item_at(bounds, place) {
        Some(slot) => lent(names, slot, missing),
        None => missing,
    }
}

/// How many numbers a range has, by how much its last is above its first.
fn up_to(more: i128) -> Places
    ensures { result ≡ up_to more }
{
    if more < 0 {
        Places::Count(0)
    } else if more < 4_194_304 {
        Places::Count(more as usize + 1)
    } else {
        Places::Failed(Cause::Size)
    }
}

/// How many places a range has.
fn range_size(low: &Val, high: &Val) -> Places
    ensures { result ≡ range_size (out-Val low.now) (out-Val high.now) }
{
    match (low, high) {
        (Val::Err(cause), _) => Places::Failed(*cause),
        (_, Val::Err(cause)) => Places::Failed(*cause),
        (Val::Int(low), Val::Int(high)) => up_to(i128::from(*high) - i128::from(*low)),
        _ => Places::Failed(Cause::Explicit),
    }
}

/// How many elements an array or a stream has.
fn list_size(list: &Val) -> Places
    ensures { result ≡ list_size (out-Val list.now) }
{
    match list {
        Val::Arr(array) => Places::Count(array.len()),
        Val::Stream(items) => Places::Count(items.len()),
        Val::Err(cause) => Places::Failed(*cause),
        _ => Places::Failed(Cause::Explicit),
    }
}

/// How many places a generator has, by its bounds.
fn size_of(source: Source, first: &Val, second: &Val) -> Places
    ensures { result ≡ size_of source first.now second.now }
{
    match source {
        Source::Range => range_size(first, second),
        Source::Elements | Source::Indexed => list_size(first),
    }
}

/// How many places each generator has.
fn sizes_of(
    alloc: Global,
    names: &[Val],
    sources: &[Source],
    bounds: &[Slot],
) -> Result<Seq<Places>, NoMemory>
    ensures { IfOk result (λ sizes. sizes ≡ sizes_of sources.now (slot_values names.now bounds.now)) }
{
    let missing = Val::Err(Cause::Explicit);
    let mut sizes = Seq::new(alloc);
    let mut left = bounds;
    for source in sources {
        let first = bound(names, left, 0, &missing);
        let second = bound(names, left, 1, &missing);
        sizes.add(size_of(*source, first, second))?;
        left = behind(*source, left);
    }
    Ok(sizes)
}

/// The first error among sizes.
fn first_failure(sizes: &[Places]) -> Option<Cause>
    ensures { result ≡ first_failure sizes.now }
{
    for size in sizes {
        if let Places::Failed(cause) = size {
            return Some(*cause);
        }
    }
    None
}

/// Whether each generator has so many places.
fn are_size(count: usize, sizes: &[Places]) -> bool
    ensures { result ≡ are_size count sizes.now }
{
    for size in sizes {
        match size {
            Places::Count(n) => {
                if *n != count {
                    return false;
                }
            }
            Places::Failed(_) => return false,
        }
    }
    true
}

/// So many places as each generator has.
fn common(sizes: &[Places]) -> Places
    ensures { result ≡ common sizes.now }
{
    match sizes {
        [] => Places::Count(0),
        [Places::Count(n), rest @ ..] => {
            if are_size(*n, rest) {
                Places::Count(*n)
            } else {
                Places::Failed(Cause::Size)
            }
        }
        [Places::Failed(cause), ..] => Places::Failed(*cause),
    }
}

/// How many places generators have that go together.
pub fn places_of(
    alloc: Global,
    names: &[Val],
    sources: &[Source],
    bounds: &[Slot],
) -> Result<Places, NoMemory>
    ensures { IfOk result (λ places. places ≡ places_of sources.now (slot_values names.now bounds.now)) }
{
    let sizes = sizes_of(alloc, names, sources, bounds)?;
    match first_failure(sizes.as_slice()) {
        Some(cause) => Ok(Places::Failed(cause)),
        None => Ok(common(sizes.as_slice())),
    }
}

/// The number of a range at a place.
fn number_in(low: &Val, place: usize) -> Val
    ensures { result ≡ number_in (out-Val low.now) place }
{
    match low {
        Val::Int(low) => whole(i128::from(*low) + place as i128),
        _ => Val::Err(Cause::Explicit),
    }
}

/// The index of an array or a stream at a place.
fn index_in(list: &Val, place: usize) -> Val
    ensures { result ≡ index_in (out-Val list.now) place }
{
    match list {
        Val::Arr(array) => whole(i128::from(array.lo()) + place as i128),
        Val::Stream(_) => whole(1 + place as i128),
        _ => Val::Err(Cause::Explicit),
    }
}

/// A copy of an element that may be there.
fn copied(alloc: Global, element: Option<&Val>) -> Result<Val, NoMemory>
    ensures { IfOk result (λ v. v ≡ unwrap_or (option_copied element.entry) (val.Err cause.Explicit)) }
{
    match element {
        Some(v) => copy(alloc, v),
        None => Ok(Val::Err(Cause::Explicit)),
    }
}

/// A copy of the element of an array or a stream at a place.
fn element_at(alloc: Global, list: &Val, place: usize) -> Result<Val, NoMemory>
    ensures { IfOk result (λ v. v ≡ element_at list.now place) }
{
    match list {
        Val::Arr(array) => copied(alloc, item_at(array.as_slice(), place)),
        Val::Stream(items) => copied(alloc, item_at(items.as_slice(), place)),
        _ => Ok(Val::Err(Cause::Explicit)),
    }
}

/// Adds the names of a generator at a place, by its first bound.
fn add_names_of(
    alloc: Global,
    made: &mut Items,
    source: Source,
    first: &Val,
    place: usize,
) -> Result<(), NoMemory>
    ensures { OnOk result (made.new ≡ made.old ++ names_of source first.now place) }
{
    match source {
        Source::Range => Ok(made.add(number_in(first, place))?),
        Source::Elements => {
            let v = element_at(alloc, first, place)?;
            Ok(made.add(v)?)
        }
        Source::Indexed => {
            let v = element_at(alloc, first, place)?;
            made.add(v)?;
            Ok(made.add(index_in(first, place))?)
        }
    }
}

/// The values of the names of generators at a place.
pub fn names_at(
    alloc: Global,
    names: &[Val],
    sources: &[Source],
    bounds: &[Slot],
    place: usize,
) -> Result<Items, NoMemory>
    ensures { IfOk result (λ made. made ≡ names_at sources.now (slot_values names.now bounds.now) place) }
{
    let missing = Val::Err(Cause::Explicit);
    let mut made = Items::new(alloc);
    let mut left = bounds;
    for source in sources {
        let first = bound(names, left, 0, &missing);
        add_names_of(alloc, &mut made, *source, first, place)?;
        left = behind(*source, left);
    }
    Ok(made)
}

/// The lower bound of arrays that a loop makes, by the first bound.
pub fn lower_of(names: &[Val], bounds: &[Slot]) -> i64
    ensures { result ≡ lower_of (slot_values names.now bounds.now) }
{
    let missing = Val::Err(Cause::Explicit);
    match bound(names, bounds, 0, &missing) {
        Val::Int(low) => *low,
        Val::Arr(array) => array.lo(),
        _ => 1,
    }
}
