//! The literals of the basic types, and their canonical spelling (IF1 manual M-170, literals).
ghost use Rattle.std.specs.Prelude.{◌≡◌, ◌<◌, ◌++◌, length, map, IfOk, OnOk};
ghost use Rattle.std.specs.Char.{is_ascii_digit, to_ascii_lowercase};
ghost use Rattle.std.specs.Fmt.{signed_decimal};
ghost use Rattle.std.specs.List.{list_all};
ghost use Rattle.if1_graph.specs.Tables.{beside, named};
ghost use Rattle.if1_graph.specs.Literals.{digits_value, whole, integer, truths, boolean, escapes, code, item, before_quote, character, nulls, literal, hex_digit, hex_of, item_text, literal_text};
ghost use Rattle.if1_read.specs.Digits.{in_64_bits, if_small, fitting, with_sign, plain_item, hex_code, ended_item};

use flow_value::{NoMemory, Text, Val};
use if1_graph::Basic;
use itoa::Buffer;
use std::alloc::Global;

/// The largest number of 64 bits.
const LARGEST: u128 = 18446744073709551615;

/// What digits spell, if 64 bits hold it. A byte below the digits counts 0.
fn digits_value(digits: &[u8]) -> Option<u64>
    ensures { result ≡ in_64_bits (digits_value digits.now) }
{
    let mut value: u128 = 0;
    for digit in digits {
        value = value * 10 + u128::from(digit.saturating_sub(b'0'));
        if value > LARGEST {
            return None;
        }
    }
    u64::try_from(value).ok()
}

fn has_digits_only(text: &[u8]) -> bool
    ensures { result ≡ list_all is_ascii_digit text.now }
{
    text.iter().all(|c| c.is_ascii_digit())
}

/// What one digit or more spell, if 64 bits hold it.
#[tactic(auto, using(crate::proofs::Reading::whole_0, crate::proofs::Reading::whole_digits, crate::proofs::Reading::whole_other))]
fn whole(text: &[u8]) -> Option<u64>
    ensures { result ≡ if_small (whole text.now) }
{
    if text.is_empty() {
        return None;
    }
    if has_digits_only(text) {
        digits_value(text)
    } else {
        None
    }
}

fn narrow(z: i128) -> Option<i64>
    ensures { result ≡ fitting z }
{
    i64::try_from(z).ok()
}

fn with_sign(minus: bool, n: Option<u64>) -> Option<i64>
    ensures { result ≡ with_sign minus n }
{
    match n {
        Some(n) if minus => narrow(-i128::from(n)),
        Some(n) => narrow(i128::from(n)),
        None => None,
    }
}

/// The integer that a text spells: digits with or without a minus before them, within 64 signed bits.
#[tactic(auto, using(crate::proofs::Reading::integer_0, crate::proofs::Reading::integer_minus, crate::proofs::Reading::integer_plain))]
fn integer(text: &[u8]) -> Option<i64>
    ensures { result ≡ integer text.now }
{
    if text.is_empty() {
        return None;
    }
    if text[0] == b'-' {
        with_sign(true, whole(&text[1..]))
    } else {
        with_sign(false, whole(text))
    }
}

fn truth(word: &[u8]) -> Option<bool>
    ensures { result ≡ named word.now truths }
{
    match word {
        b"t" => Some(true),
        b"true" => Some(true),
        b"f" => Some(false),
        b"false" => Some(false),
        _ => None,
    }
}

fn lower(alloc: Global, text: &[u8]) -> Result<Vec<u8>, NoMemory>
    ensures { IfOk result (λ v. v.items ≡ map to_ascii_lowercase text.now) }
{
    Ok(text.iter().map(|c| c.to_ascii_lowercase()).collect(alloc)?)
}

fn boolean(alloc: Global, text: &[u8]) -> Result<Option<bool>, NoMemory>
    ensures { IfOk result (λ r. r ≡ boolean text.now) }
{
    let word = lower(alloc, text)?;
    Ok(truth(word.as_slice()))
}

fn hex_digit(c: u8) -> Option<u8>
    ensures { result ≡ hex_digit c }
{
    match c {
        b'0'..=b'9' => Some(c - b'0'),
        b'a'..=b'f' => Some(c - b'a' + 10),
        b'A'..=b'F' => Some(c - b'A' + 10),
        _ => None,
    }
}

fn code(n: u32) -> Option<u8>
    ensures { result ≡ code n }
{
    if n < 128 { Some(n as u8) } else { None }
}

fn plain(c: u8) -> Option<u8>
    ensures { result ≡ plain_item c }
{
    if 32 <= c && c <= 126 && c != b'\\' && c != b'\'' {
        Some(c)
    } else {
        None
    }
}

fn escape(letter: u8) -> Option<u8>
    ensures { result ≡ beside letter escapes }
{
    match letter {
        b'n' => Some(b'\n'),
        b't' => Some(b'\t'),
        b'r' => Some(b'\r'),
        b'\\' => Some(b'\\'),
        b'\'' => Some(b'\''),
        b'"' => Some(b'"'),
        _ => None,
    }
}

fn hex_code(high: u8, low: u8) -> Option<u8>
    ensures { result ≡ hex_code high low }
{
    let high = hex_digit(high)?;
    let low = hex_digit(low)?;
    code(16 * u32::from(high) + u32::from(low))
}

/// The character of one item between quotes.
#[tactic(auto, using(crate::proofs::Reading::item_1, crate::proofs::Reading::item_2, crate::proofs::Reading::item_4, crate::proofs::Reading::item_other))]
fn item(text: &[u8]) -> Option<u8>
    ensures { result ≡ item text.now }
{
    if text.len() == 1 {
        return plain(text[0]);
    }
    if text.len() == 2 {
        if text[0] == b'\\' {
            return escape(text[1]);
        }
        return None;
    }
    if text.len() == 4 {
        if text[0] == b'\\' && text[1] == b'x' {
            return hex_code(text[2], text[3]);
        }
        return None;
    }
    None
}

/// The character of a text that ends in a quote, behind which nothing stands.
#[tactic(auto, using(crate::proofs::Reading::ended_is))]
fn ended_item(text: &[u8]) -> Option<u8>
    requires { 0 < length text.now }
    ensures { result ≡ ended_item text.now }
{
    let last = text.len() - 1;
    if text[last] == b'\'' {
        item(&text[..last])
    } else {
        None
    }
}

/// The character that a text spells: one byte, or an item in single quotes.
#[tactic(auto, using(crate::proofs::Reading::character_0, crate::proofs::Reading::character_1, crate::proofs::Reading::character_2))]
fn character(text: &[u8]) -> Option<u8>
    ensures { result ≡ character text.now }
{
    if text.is_empty() {
        return None;
    }
    if text.len() == 1 {
        return code(u32::from(text[0]));
    }
    if text[0] == b'\'' {
        return ended_item(&text[1..]);
    }
    None
}

fn null(text: &[u8]) -> Option<Val>
    ensures { result ≡ named text.now nulls }
{
    match text {
        b"nil" => Some(Val::Null),
        _ => None,
    }
}

/// The value that a text spells at a basic type.
pub fn literal(alloc: Global, basic: Basic, text: &[u8]) -> Result<Option<Val>, NoMemory>
    ensures { IfOk result (λ r. r ≡ literal basic text.now) }
{
    match basic {
        Basic::Integer => Ok(integer(text).map(|n| Val::Int(n))),
        Basic::Boolean => Ok(boolean(alloc, text)?.map(|p| Val::Bool(p))),
        Basic::Character => Ok(character(text).map(|c| Val::Char(c))),
        Basic::Null => Ok(null(text)),
        _ => Ok(None),
    }
}

fn put_number(n: i64, to: &mut Text) -> Result<(), NoMemory>
    ensures { OnOk result (to.new ≡ to.old ++ signed_decimal n) }
{
    let mut buffer = Buffer::new();
    to.extend(buffer.format(n).as_bytes())
}

fn hex_of(n: u8) -> u8
    requires { n < 16 }
    ensures { result ≡ hex_of n }
{
    if n < 10 { b'0' + n } else { b'a' + (n - 10) }
}

fn put_item(c: u8, to: &mut Text) -> Result<(), NoMemory>
    ensures { OnOk result (to.new ≡ to.old ++ item_text c) }
{
    match c {
        b'\\' => to.extend(b"\\\\"),
        b'\'' => to.extend(b"\\'"),
        b'"' => to.extend(b"\\x22"),
        32..=126 => to.extend(&[c]),
        _ => to.extend(&[b'\\', b'x', hex_of(c / 16), hex_of(c % 16)]),
    }
}

fn put(v: &Val, to: &mut Text) -> Result<(), NoMemory>
    ensures { OnOk result (to.new ≡ to.old ++ literal_text v.now) }
{
    match v {
        Val::Int(n) => put_number(*n, to),
        Val::Bool(true) => to.extend(b"true"),
        Val::Bool(false) => to.extend(b"false"),
        Val::Char(c) => {
            to.extend(b"'")?;
            put_item(*c, to)?;
            to.extend(b"'")
        }
        Val::Null => to.extend(b"nil"),
        _ => Ok(()),
    }
}

/// The canonical spelling of a scalar value.
pub fn literal_text(alloc: Global, v: &Val) -> Result<Text, NoMemory>
    ensures { IfOk result (λ t. t ≡ literal_text v.now) }
{
    let mut text = Text::new(alloc);
    put(v, &mut text)?;
    Ok(text)
}
