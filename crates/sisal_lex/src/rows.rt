//! Rows of bytes of one class, and what they spell.
ghost use Rattle.std.specs.Prelude.{◌≡◌, ◌∷◌, map, take, IfOk, Some, None, if◌then◌else◌, nat_le};
ghost use Rattle.std.specs.List.{prefix_len};
ghost use Rattle.std.specs.Char.{is_ascii_digit, to_ascii_lowercase};
ghost use Rattle.sisal_lex.specs.Tokens.{is_in_line, is_in_name, number_value, number_in_range};

use flow_value::{Name, NoMemory, Seq};
use std::alloc::Global;

const LARGEST: u128 = 9223372036854775807;

/// How many bytes from the front on belong to the same line.
pub fn bytes_in_line(text: &[u8]) -> usize
    ensures { result ≡ prefix_len is_in_line text.now }
{
    text.iter().take_while(|b| **b != b'\n').count()
}

/// How many bytes from the front on are letters, digits and `_`.
pub fn bytes_in_name(text: &[u8]) -> usize
    ensures { result ≡ prefix_len is_in_name text.now }
{
    text.iter()
        .take_while(|b| b.is_ascii_alphabetic() || b.is_ascii_digit() || **b == b'_')
        .count()
}

/// How many bytes from the front on are digits.
pub fn digits(text: &[u8]) -> usize
    ensures { result ≡ prefix_len is_ascii_digit text.now }
{
    text.iter().take_while(|b| b.is_ascii_digit()).count()
}

/// The spelling of a name in small letters, by its first byte and the others.
pub fn folded(alloc: Global, first: u8, others: &[u8]) -> Result<Name, NoMemory>
    ensures { IfOk result (λ n. n ≡ map to_ascii_lowercase (first ∷ others.now)) }
{
    let mut small = Seq::new(alloc);
    small.add(first.to_ascii_lowercase())?;
    for byte in others {
        small.add(byte.to_ascii_lowercase())?;
    }
    Ok(small)
}

/// The number that a row of digits spells, by its first digit and the others, if it is at most
/// 9223372036854775807.
pub fn number_of(first: u8, others: &[u8]) -> Option<i64>
    ensures { result ≡ number_in_range (number_value (first ∷ others.now)) }
{
    let mut value = u128::from(first.saturating_sub(b'0'));
    for byte in others {
        value = 10 * value + u128::from(byte.saturating_sub(b'0'));
        if value > LARGEST {
            return None;
        }
    }
    i64::try_from(value).ok()
}
