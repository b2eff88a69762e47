//! Writes a SISAL program of a given size, to try the runtime with.
#![tactic(auto)]

ghost use Rattle.std.specs.Prelude.{◌≡◌, ◌++◌, decimal, OnOk, IfOk};
ghost use Rattle.flow_gen.specs.Program.{program};

use flow_value::{NoMemory, Text};
use itoa::Buffer;
use std::alloc::Global;

/// Up to the number of elements.
const HEAD: &[u8] = b"define main
function main(returns integer, integer, integer, integer)
let n := ";

/// From there up to the seed of the elements.
const ELEMENTS: &[u8] = b";
a := for i in 1, n returns array of mod(i * 3 + ";

/// From there to the end.
const RESULTS: &[u8] = b", 10) end for;
b := for x in a at i returns array of i when x = 0 end for;
c := for initial k := 1; v := a while k <= 100 repeat
k := old k + 1; v := old v[old k: old v[old k] + 1000]
returns value of v end for
in for x in c returns value of sum x end for,
for x in a returns value of greatest x end for,
array_size(b), array_size(a || b)
end let
end function
";

/// The text of a program over an array of `1000 * n` elements. It selects elements, updates the
/// array in a loop of a hundred turns, and folds what it made. The command `gen` takes `n` from 1
/// to 500.
pub fn make(alloc: Global, n: u32) -> Result<Text, NoMemory>
    ensures { IfOk result (λ text. text ≡ program n) }
{
    let mut text = Text::new(alloc);
    text.extend(HEAD)?;
    put_number(&mut text, 1000 * u64::from(n))?;
    text.extend(ELEMENTS)?;
    put_number(&mut text, u64::from(n))?;
    text.extend(RESULTS)?;
    Ok(text)
}

/// Adds a number in decimal.
fn put_number(text: &mut Text, number: u64) -> Result<(), NoMemory>
    ensures { OnOk result (text.new ≡ text.old ++ decimal number) }
{
    let mut buffer = Buffer::new();
    text.extend(buffer.format(number).as_bytes())
}
