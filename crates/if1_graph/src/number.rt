//! Numbers.
ghost use Rattle.std.specs.Prelude.{◌≡◌, ◌+◌, ◌≤◌, IfOk, drop, length};
ghost use Rattle.std.specs.Char.{is_ascii_digit};
ghost use Rattle.std.specs.List.{list_all, prefix_len};
ghost use Rattle.if1_graph.specs.LineParts.{parts_of};
ghost use Rattle.if1_graph.specs.Numbers.{is_row, row_value, in_32_bits, numeral, number_first, number_list};
ghost use Rattle.if1_graph.specs.Places.{placed, added, became, is_in_piece};
ghost use Rattle.if1_graph.specs.Reading.{numbers_first};

use crate::line_part::{next_part, word_of};
use crate::pragma::is_pragma_word;
use flow_value::{NoMemory, Numbers};
use std::alloc::Global;

const LARGEST: u64 = 4294967295;

fn has_digits_only(word: &[u8]) -> bool
    ensures { result ≡ list_all is_ascii_digit word.now }
{
    word.iter().all(|c| c.is_ascii_digit())
}

fn is_row(word: &[u8]) -> bool
    ensures { result ≡ is_row word.now }
{
    !word.is_empty() && has_digits_only(word)
}

/// What a row of digits spells, if it has 32 bits. A byte below the digits counts 0.
fn row_value(digits: &[u8]) -> Option<u32>
    ensures { result ≡ in_32_bits (row_value digits.now) }
{
    let mut value: u64 = 0;
    for digit in digits {
        value = 10 * value + u64::from(digit.saturating_sub(b'0'));
        if value > LARGEST {
            return None;
        }
    }
    u32::try_from(value).ok()
}

/// The number, at least this, that a word spells.
pub fn numeral(word: &[u8], least: u32) -> Option<u32>
    ensures { result ≡ numeral least word.now }
{
    if !is_row(word) {
        return None;
    }
    let value = row_value(word)?;
    if least <= value { Some(value) } else { None }
}

/// The number at a place, at least this, and the place behind it.
pub fn number(line: &[u8], at: usize, least: u32) -> Option<(u32, usize)>
    ensures { number_first least (parts_of (drop at line.now)) ≡ placed line.now result }
{
    let (part, rest) = next_part(line, at)?;
    let value = numeral(word_of(line, part), least)?;
    Some((value, rest))
}

/// The numbers from a place on up to the first pragma, and the place of that.
pub fn numbers(
    alloc: Global,
    line: &[u8],
    from: usize,
) -> Result<Option<(Numbers, usize)>, NoMemory>
    ensures { IfOk result (λ r. numbers_first (parts_of (drop from line.now)) ≡ placed line.now r) }
{
    let mut all = Numbers::new(alloc);
    let mut at = from;
    while let Some((part, rest)) = next_part(line, at) {
        let word = word_of(line, part);
        if is_pragma_word(word) {
            return Ok(Some((all, at)));
        }
        let Some(value) = numeral(word, 0) else {
            return Ok(None);
        };
        all.add(value)?;
        at = rest;
    }
    Ok(Some((all, at)))
}

fn piece_bytes(text: &[u8]) -> usize
    ensures { result ≡ prefix_len is_in_piece text.now }
{
    text.iter().take_while(|c| **c != b',').count()
}

/// How many bytes stand from a place on before the next comma.
fn bytes_in_piece(text: &[u8], from: usize) -> usize
    requires { from ≤ length text.now }
    ensures value { result ≡ prefix_len is_in_piece (drop from text.now) }
    ensures within { from + result ≤ length text.now }
{
    piece_bytes(&text[from..])
}

/// Adds the numbers, each at least this, of a list with commas; false where it is no such list.
pub fn add_numbers(all: &mut Numbers, text: &[u8], least: u32) -> Result<bool, NoMemory>
    ensures { IfOk result (λ ok. added all.old (number_list least text.now) ≡ became ok all.new) }
{
    let mut from = 0;
    loop {
        let end = from + bytes_in_piece(text, from);
        let Some(value) = numeral(&text[from..end], least) else {
            return Ok(false);
        };
        all.add(value)?;
        if end == text.len() {
            return Ok(true);
        }
        from = end + 1;
    }
}
