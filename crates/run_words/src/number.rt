//! Numbers of words.
ghost use Rattle.std.specs.Prelude.{◌≡◌, ◌≤◌, IfOk};
ghost use Rattle.std.specs.Char.{is_ascii_digit};
ghost use Rattle.std.specs.List.{list_all};
ghost use Rattle.run_words.specs.Reading.{number_at};

use crate::fault::WordFault;

/// The number of a word in decimal digits, from `low` to `high`; word `place` is at fault.
pub fn number_in(word: &str, place: usize, low: u64, high: u64) -> Result<u64, WordFault>
    ensures exact { result ≡ number_at low high place word.now }
    ensures within { IfOk result (λ n. n ≤ high) }
{
    if word.is_empty() || !has_digits_only(word.as_bytes()) {
        return Err(WordFault::NotANumber(place));
    }
    match word.parse::<u64>() {
        Ok(number) if low <= number && number <= high => Ok(number),
        _ => Err(WordFault::OutOfRange(place)),
    }
}

/// Whether each byte is a decimal digit.
fn has_digits_only(word: &[u8]) -> bool
    ensures { result ≡ list_all is_ascii_digit word.now }
{
    word.iter().all(|byte| byte.is_ascii_digit())
}
