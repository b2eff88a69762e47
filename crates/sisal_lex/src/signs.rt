//! The signs.
ghost use Rattle.std.specs.Prelude.{◌≡◌, ◌∷◌, []};
ghost use Rattle.sisal_lex.specs.Words.{beside};
ghost use Rattle.sisal_lex.specs.Signs.{signs, long_sign, short_sign};

use crate::token::Sign;

/// The sign of two bytes with which a text begins, by its first byte and the bytes after it.
pub fn long_sign(first: u8, after: &[u8]) -> Option<Sign>
    ensures { result ≡ long_sign first after.now }
{
    match after {
        [] => None,
        [second, ..] => sign_of_two(first, *second),
    }
}

fn sign_of_two(first: u8, second: u8) -> Option<Sign>
    ensures { result ≡ beside (first ∷ second ∷ []) signs }
{
    match (first, second) {
        (b':', b'=') => Some(Sign::SAssign),
        (b'|', b'|') => Some(Sign::SCatenate),
        (b'~', b'=') => Some(Sign::SNotEqual),
        (b'<', b'=') => Some(Sign::SLessEqual),
        (b'>', b'=') => Some(Sign::SGreaterEqual),
        _ => None,
    }
}

/// The sign that is this byte.
pub fn short_sign(byte: u8) -> Option<Sign>
    ensures { result ≡ short_sign byte }
{
    match byte {
        b'(' => Some(Sign::SOpenParen),
        b')' => Some(Sign::SCloseParen),
        b'[' => Some(Sign::SOpenBracket),
        b']' => Some(Sign::SCloseBracket),
        b',' => Some(Sign::SComma),
        b';' => Some(Sign::SSemicolon),
        b':' => Some(Sign::SColon),
        b'.' => Some(Sign::SDot),
        b'+' => Some(Sign::SPlus),
        b'-' => Some(Sign::SMinus),
        b'*' => Some(Sign::STimes),
        b'/' => Some(Sign::SDivide),
        b'|' => Some(Sign::SOr),
        b'&' => Some(Sign::SAnd),
        b'~' => Some(Sign::SNot),
        b'=' => Some(Sign::SEqual),
        b'<' => Some(Sign::SLess),
        b'>' => Some(Sign::SGreater),
        _ => None,
    }
}
