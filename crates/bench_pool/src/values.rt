//! The value text of an array of integers, and the array itself.

use flow_value::{Held, Items, NoMemory, Text, Ty, Val, array_of};
use itoa::Buffer;
use std::alloc::Global;
use value_text::{ValueFault, print_value, read_value};

pub const FEW: u32 = 1000;

pub const MANY: u32 = 1_000_000;

/// The integer at a place, of 32 signed bits; they are spread over their range.
fn integer_at(place: u32) -> i64 {
    i64::from(place.wrapping_mul(2_654_435_761)) - 2_147_483_648
}

/// The value text of an array of so many integers.
pub fn text_of(alloc: Global, count: u32) -> Result<Text, NoMemory> {
    let mut text = Text::new(alloc);
    let mut buffer = Buffer::new();
    text.extend(b"[1:")?;
    for i in 0..count {
        text.extend(b" ")?;
        text.extend(buffer.format(integer_at(i)).as_bytes())?;
    }
    text.extend(b"]")?;
    Ok(text)
}

/// An array of so many integers, the same.
pub fn array(alloc: Global, count: u32) -> Result<Val, NoMemory> {
    let mut items = Items::with_room(alloc, count as usize)?;
    for i in 0..count {
        items.add(Val::Int(integer_at(i)))?;
    }
    Ok(array_of(1, items))
}

/// How many elements an array has, and the sum of its integers, which wraps.
pub fn told(array: &Val) -> (usize, i64) {
    let mut sum: i64 = 0;
    let Val::Arr(items) = array else {
        return (0, sum);
    };
    for item in items.as_slice() {
        if let Val::Int(n) = item {
            sum = sum.wrapping_add(*n);
        }
    }
    (items.len(), sum)
}

/// The text that is printed of the array that a text spells.
pub fn again(alloc: Global, ty: &Ty, text: &[u8]) -> Result<Text, ValueFault> {
    let array = read_value(alloc, text, ty)?;
    let mut printed = Text::new(alloc);
    print_value(&array, &mut printed)?;
    Ok(printed)
}

pub fn checksum(text: &[u8]) -> u64 {
    let mut sum: u64 = 0;
    for c in text {
        sum = sum.wrapping_mul(31).wrapping_add(u64::from(*c));
    }
    sum
}

/// The type of an array of integers.
pub fn integers(alloc: Global) -> Result<Ty, NoMemory> {
    Ok(Ty::Arr(Held::new(alloc, Ty::Int)?))
}
