//! The tokens of a value text, each read at a place of the text.
ghost use Rattle.std.specs.Prelude.{◌≡◌, ◌+◌, ◌<◌, [], ◌∷◌, drop, length, MatchOption, IfSome, IsTrue, Some, None, if◌then◌else◌};
ghost use Rattle.value_text.specs.Tokens.{placed, from_place, is_blank, is_digit, is_letter, past_blanks, ends_row, sign_in, word_in, number_from, number_in, in_64_bits, with_digit, integer_in, is_plain, hex_digit, hex_in, escape_of, escape_in, item_in};
ghost use Rattle.flow_value.specs.Scalar.{fits_64};

/// The byte at a place, if the text goes on there.
pub fn front(text: &[u8], at: usize) -> Option<u8>
    ensures here { MatchOption
        result
        (drop at text.now ≡ [])
        (λ c. drop at text.now ≡ c ∷ drop (at + 1) text.now) }
    ensures within { IfSome result (λ _. at < length text.now) }
{
    if at < text.len() {
        Some(text[at])
    } else {
        None
    }
}

pub fn is_blank(c: u8) -> bool
    ensures { result ≡ is_blank c }
{
    c == b' ' || c == b'\n' || c == b'\r' || c == b'\t'
}

/// The place behind the blanks from a place on.
pub fn skip(text: &[u8], from: usize) -> usize
    ensures { past_blanks (drop from text.now) ≡ drop result text.now }
{
    let mut at = from;
    while at < text.len() && is_blank(text[at]) {
        at += 1;
    }
    at
}

/// The place behind this byte, if it stands at the place.
pub fn sign(text: &[u8], at: usize, c: u8) -> Option<usize>
    ensures { sign_in c (drop at text.now) ≡ from_place text.now result }
{
    match front(text, at) {
        Some(d) if d == c => Some(at + 1),
        _ => None,
    }
}

fn is_row_end(text: &[u8], at: usize) -> bool
    ensures { result ≡ ends_row (drop at text.now) }
{
    match front(text, at) {
        None => true,
        Some(c) => !(is_digit(c) || is_letter(c)),
    }
}

pub fn is_digit(c: u8) -> bool
    ensures { result ≡ is_digit c }
{
    48 <= c && c <= 57
}

pub fn is_letter(c: u8) -> bool
    ensures { result ≡ is_letter c }
{
    65 <= c && c <= 90 || 97 <= c && c <= 122
}

/// The place behind this word, if it stands at the place and no letter or digit follows.
pub fn word(text: &[u8], from: usize, word: &[u8]) -> Option<usize>
    ensures { word_in word.now (drop from text.now) ≡ from_place text.now result }
{
    let mut at = from;
    for c in word {
        at = sign(text, at, *c)?;
    }
    if is_row_end(text, at) { Some(at) } else { None }
}

fn with_digit(n: u64, c: u8) -> Option<u64>
    requires { IsTrue (is_digit c) }
    ensures { result ≡ with_digit n c }
{
    n.checked_mul(10)?.checked_add(u64::from(c - 48))
}

fn digits(text: &[u8], from: usize) -> Option<(u64, usize)>
    ensures { in_64_bits (number_from 0 (drop from text.now)) ≡ placed text.now result }
{
    let mut n: u64 = 0;
    let mut at = from;
    while at < text.len() && is_digit(text[at]) {
        n = with_digit(n, text[at])?;
        at += 1;
    }
    Some((n, at))
}

/// The number at a place, where it fits 64 bits and no letter follows.
pub fn number(text: &[u8], from: usize) -> Option<(u64, usize)>
    ensures { number_in (drop from text.now) ≡ placed text.now result }
{
    if !is_digit(front(text, from)?) {
        return None;
    }
    let (n, at) = digits(text, from)?;
    if is_row_end(text, at) {
        Some((n, at))
    } else {
        None
    }
}

fn narrow(z: i128) -> Option<i64>
    ensures { result ≡ (if fits_64 z then Some z else None) }
{
    i64::try_from(z).ok()
}

/// The whole number at a place, where it fits 64 signed bits. Blanks may stand behind its minus.
pub fn integer(text: &[u8], at: usize) -> Option<(i64, usize)>
    ensures { integer_in (drop at text.now) ≡ placed text.now result }
{
    match sign(text, at, b'-') {
        None => {
            let (n, end) = number(text, at)?;
            let z = narrow(i128::from(n))?;
            Some((z, end))
        }
        Some(behind) => {
            let (n, end) = number(text, skip(text, behind))?;
            let z = narrow(-i128::from(n))?;
            Some((z, end))
        }
    }
}

pub fn hex_digit(c: u8) -> Option<u8>
    ensures value { result ≡ hex_digit c }
    ensures small { IfSome result (λ n. n < 16) }
{
    match c {
        48..=57 => Some(c - 48),
        65..=70 => Some(c - 55),
        97..=102 => Some(c - 87),
        _ => None,
    }
}

fn hex(text: &[u8], at: usize) -> Option<(u8, usize)>
    ensures { hex_in (drop at text.now) ≡ placed text.now result }
{
    let high = front(text, at)?;
    let low = front(text, at + 1)?;
    if 48 <= high && high <= 55 {
        let value = hex_digit(low)?;
        Some(((high - 48) * 16 + value, at + 2))
    } else {
        None
    }
}

pub fn escape_of(d: u8) -> Option<u8>
    ensures { result ≡ escape_of d }
{
    match d {
        b'n' => Some(10),
        b't' => Some(9),
        b'r' => Some(13),
        b'\\' | b'\'' | b'"' => Some(d),
        _ => None,
    }
}

fn escape(text: &[u8], at: usize) -> Option<(u8, usize)>
    ensures { escape_in (drop at text.now) ≡ placed text.now result }
{
    let d = front(text, at)?;
    if d == b'x' {
        return hex(text, at + 1);
    }
    let c = escape_of(d)?;
    Some((c, at + 1))
}

pub fn is_plain(quote: u8, c: u8) -> bool
    ensures { result ≡ is_plain quote c }
{
    32 <= c && c <= 126 && c != b'\\' && c != quote
}

/// The item at a place of a character or text that this quote closes.
pub fn item(text: &[u8], at: usize, quote: u8) -> Option<(u8, usize)>
    ensures { item_in quote (drop at text.now) ≡ placed text.now result }
{
    let c = front(text, at)?;
    if c == b'\\' {
        return escape(text, at + 1);
    }
    if is_plain(quote, c) {
        Some((c, at + 1))
    } else {
        None
    }
}
