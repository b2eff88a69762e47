//! Characters and texts in quotes.
ghost use Rattle.std.specs.Prelude.{◌≡◌, ◌+◌, ◌≤◌, length, IfOk, IfSome};
ghost use Rattle.sisal_lex.specs.Quotes.{escaped, hex_digit, hex_item, escape, item, character, items, IsWithin};

use flow_value::{NoMemory, Seq, Text};
use std::alloc::Global;

/// A character between quotes: its code, and how many bytes spell it.
#[derive(Clone, Copy)]
pub struct Item {
    /// The code, from 0 to 127.
    pub code: u8,
    /// The number of bytes.
    pub bytes: usize,
}

/// The characters of a text in quotes, and how many bytes spell them with the closing quote.
#[derive(Drop)]
pub struct Codes {
    /// The codes of the characters.
    pub codes: Text,
    /// The number of bytes.
    pub bytes: usize,
}

fn escaped(letter: u8) -> Option<u8>
    ensures { result ≡ escaped letter }
{
    match letter {
        b'n' => Some(b'\n'),
        b't' => Some(b'\t'),
        b'r' => Some(b'\r'),
        b'\\' => Some(b'\\'),
        b'\'' => Some(b'\''),
        b'"' => Some(b'"'),
        _ => None,
    }
}

fn hex_digit(byte: u8) -> Option<u8>
    ensures value { result ≡ hex_digit byte }
    ensures small { IfSome result (λ d. d ≤ 15) }
{
    match byte {
        b'0'..=b'9' => Some(byte - b'0'),
        b'a'..=b'f' => Some(byte - b'a' + 10),
        b'A'..=b'F' => Some(byte - b'A' + 10),
        _ => None,
    }
}

fn hex_item(after: &[u8]) -> Option<Item>
    ensures value { result ≡ hex_item after.now }
    ensures within { IfSome result (λ i. IsWithin i (length after.now + 2)) }
{
    let [high, low, ..] = after else {
        return None;
    };
    let (Some(high), Some(low)) = (hex_digit(*high), hex_digit(*low)) else {
        return None;
    };
    let code = 16 * high + low;
    if code <= 127 {
        Some(Item { code, bytes: 4 })
    } else {
        None
    }
}

fn escape(after: &[u8]) -> Option<Item>
    ensures value { result ≡ escape after.now }
    ensures within { IfSome result (λ i. IsWithin i (length after.now + 1)) }
{
    match after {
        [] => None,
        [b'x', digits @ ..] => hex_item(digits),
        [letter, ..] => {
            let code = escaped(*letter)?;
            Some(Item { code, bytes: 2 })
        }
    }
}

/// The item at the head of a text between two of `quote`.
fn next_item(quote: u8, text: &[u8]) -> Option<Item>
    ensures value { result ≡ item quote text.now }
    ensures within { IfSome result (λ i. IsWithin i (length text.now)) }
{
    match text {
        [] => None,
        [b'\\', after @ ..] => escape(after),
        [byte, ..] => {
            if 32 <= *byte && *byte <= 126 && *byte != quote {
                Some(Item {
                    code: *byte,
                    bytes: 1,
                })
            } else {
                None
            }
        }
    }
}

/// A character by what comes after its opening quote.
pub fn character(text: &[u8]) -> Option<Item>
    ensures { result ≡ character text.now }
{
    let one = next_item(b'\'', text)?;
    match text.get(one.bytes) {
        Some(b'\'') => Some(Item {
            code: one.code,
            bytes: one.bytes + 1,
        }),
        _ => None,
    }
}

/// A text by what comes after its opening quote.
pub fn text_in_quotes(alloc: Global, text: &[u8]) -> Result<Option<Codes>, NoMemory>
    ensures { IfOk result (λ t. t ≡ items text.now 0) }
{
    let mut codes = Seq::new(alloc);
    let mut at = 0;
    while at < text.len() {
        if text[at] == b'"' {
            return Ok(Some(Codes {
                codes,
                bytes: at + 1,
            }));
        }
        let Some(one) = next_item(b'"', &text[at..]) else {
            return Ok(None);
        };
        codes.add(one.code)?;
        at += one.bytes;
    }
    Ok(None)
}
