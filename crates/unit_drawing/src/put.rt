//! Numbers and words behind a text.
ghost use Rattle.std.specs.Prelude.{◌≡◌, ◌++◌, decimal, OnOk};

use flow_value::{NoMemory, Text};
use itoa::Buffer;

/// Adds a number in decimal.
pub fn put_number(text: &mut Text, number: u32) -> Result<(), NoMemory>
    ensures { OnOk result (text.new ≡ text.old ++ decimal number) }
{
    let mut buffer = Buffer::new();
    text.extend(buffer.format(number).as_bytes())
}

/// Adds words and a number.
pub fn put_numbered(text: &mut Text, words: &[u8], number: u32) -> Result<(), NoMemory>
    ensures { OnOk result (text.new ≡ text.old ++ (words.now ++ decimal number)) }
{
    text.extend(words)?;
    put_number(text, number)
}
