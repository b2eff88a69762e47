//! The parts of a line.
ghost use Rattle.std.specs.Prelude.{◌≡◌, ◌+◌, ◌<◌, ◌≤◌, IfSome, Some, drop, length, slice_index, nat_eq, false};
ghost use Rattle.std.specs.List.{list_all, prefix_len};
ghost use Rattle.if1_graph.specs.LineParts.{is_blank, is_line_byte, parts_of, word_of};
ghost use Rattle.if1_graph.specs.Places.{is_in_word, is_in_quotes, is_part_end, part_at, from_part, IsWithin};

/// A part of a line, by the place of its first byte and the place behind its last.
#[derive(Clone, Copy, Debug)]
pub enum PartAt {
    /// A row of bytes without blanks.
    Word(usize, usize),
    /// What stands between two quotes.
    Quoted(usize, usize),
    /// A quote that is not closed, or not followed by a blank.
    Broken,
}

pub fn is_blank(c: u8) -> bool
    ensures { result ≡ is_blank c }
{
    c == b' ' || c == b'\t'
}

fn is_line_byte(c: u8) -> bool
    ensures { result ≡ is_line_byte c }
{
    c == b'\t' || 32 <= c && c <= 126
}

/// Whether a line has no byte but tabs and printed characters.
pub fn has_line_bytes_only(line: &[u8]) -> bool
    ensures { result ≡ list_all is_line_byte line.now }
{
    line.iter().all(|c| is_line_byte(*c))
}

fn word_bytes(text: &[u8]) -> usize
    ensures { result ≡ prefix_len is_in_word text.now }
{
    text.iter().take_while(|c| !is_blank(**c)).count()
}

fn quoted_bytes(text: &[u8]) -> usize
    ensures { result ≡ prefix_len is_in_quotes text.now }
{
    text.iter().take_while(|c| **c != b'"').count()
}

/// How many bytes the word at a place has.
fn bytes_in_word(line: &[u8], from: usize) -> usize
    requires { from ≤ length line.now }
    ensures value { result ≡ prefix_len is_in_word (drop from line.now) }
    ensures within { from + result ≤ length line.now }
{
    word_bytes(&line[from..])
}

/// How many bytes stand from a place on before the next quote.
fn bytes_in_quotes(line: &[u8], from: usize) -> usize
    requires { from ≤ length line.now }
    ensures value { result ≡ prefix_len is_in_quotes (drop from line.now) }
    ensures within { from + result ≤ length line.now }
{
    quoted_bytes(&line[from..])
}

fn is_part_end(line: &[u8], at: usize) -> bool
    ensures { result ≡ is_part_end (drop at line.now) }
{
    at >= line.len() || is_blank(line[at])
}

/// The place behind the blanks from a place on.
pub fn skip(line: &[u8], from: usize) -> usize
    ensures same { parts_of (drop from line.now) ≡ parts_of (drop result line.now) }
    ensures on { from ≤ result }
    ensures past { result < length line.now → is_blank (slice_index line.now result) ≡ false }
{
    let mut at = from;
    while at < line.len() && is_blank(line[at]) {
        at += 1;
    }
    at
}

/// The next part from a place on, and the place behind it.
pub fn next_part(line: &[u8], from: usize) -> Option<(PartAt, usize)>
    ensures parts { parts_of (drop from line.now) ≡ from_part line.now result }
    ensures on { IfSome result (λ p. from < p.1) }
    ensures within { IfSome result (λ p. p.1 ≤ length line.now) }
    ensures places { IfSome result (λ p. IsWithin (length line.now) p.0) }
{
    let at = skip(line, from);
    if at >= line.len() {
        return None;
    }
    if line[at] == b'"' {
        Some(quoted(line, at))
    } else {
        Some(word(line, at))
    }
}

/// The bytes of a word, none of another part.
pub fn word_of<'a>(line: &'a [u8], part: PartAt) -> &'a [u8]
    requires { IsWithin (length line.now) part }
    ensures { result.now ≡ word_of (part_at line.now part) }
{
    match part {
        PartAt::Word(from, end) => &line[from..end],
        _ => &[],
    }
}

/// The word that begins at a place, and the place behind it.
fn word(line: &[u8], at: usize) -> (PartAt, usize)
    requires within { at < length line.now }
    requires not_blank { is_blank (slice_index line.now at) ≡ false }
    requires not_quote { nat_eq (slice_index line.now at) 34 ≡ false }
    ensures parts { parts_of (drop at line.now) ≡ from_part line.now (Some result) }
    ensures on { at < result.1 }
    ensures within { result.1 ≤ length line.now }
    ensures places { IsWithin (length line.now) result.0 }
{
    let end = at + bytes_in_word(line, at);
    (PartAt::Word(at, end), end)
}

/// The text in quotes that begins at a place, and the place behind it.
fn quoted(line: &[u8], at: usize) -> (PartAt, usize)
    requires within { at < length line.now }
    requires quote { slice_index line.now at ≡ 34 }
    ensures parts { parts_of (drop at line.now) ≡ from_part line.now (Some result) }
    ensures on { at < result.1 }
    ensures within { result.1 ≤ length line.now }
    ensures places { IsWithin (length line.now) result.0 }
{
    let end = at + 1 + bytes_in_quotes(line, at + 1);
    if end < line.len() && is_part_end(line, end + 1) {
        (PartAt::Quoted(at + 1, end), end + 1)
    } else {
        (PartAt::Broken, line.len())
    }
}
