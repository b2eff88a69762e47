//! Printing values.
ghost use Rattle.std.specs.Prelude.{◌≡◌, ◌++◌, ◌∷◌, [], decimal, IfOk, OnOk};
ghost use Rattle.sisal_top.specs.Outputs.{lines, totals_if, totals_line};
ghost use Rattle.value_text.specs.Printed.{value_bytes};

use flow_value::{NoMemory, Seq, Text, Val};
use itoa::Buffer;
use run_call::Totals;
use std::alloc::Global;
use value_text::print_value;

/// Appends a value and a line feed.
fn add_line(value: &Val, text: &mut Text) -> Result<(), NoMemory>
    ensures { OnOk result (text.new ≡ (text.old ++ value_bytes value.now) ++ 10 ∷ []) }
{
    print_value(value, text)?;
    text.add(b'\n')?;
    Ok(())
}

/// Each value on a line.
pub fn print_all(alloc: Global, values: &[Val]) -> Result<Text, NoMemory>
    ensures { IfOk result (λ text. text ≡ lines values.now) }
{
    let mut text = Seq::new(alloc);
    for value in values {
        add_line(value, &mut text)?;
    }
    Ok(text)
}

/// Appends words and a number in decimal.
fn add_number(words: &[u8], number: u64, text: &mut Text) -> Result<(), NoMemory>
    ensures { OnOk result (text.new ≡ text.old ++ (words.now ++ decimal number)) }
{
    let mut buffer = Buffer::new();
    text.extend(words)?;
    text.extend(buffer.format(number).as_bytes())
}

/// Appends the line of the totals of a run.
fn add_totals(totals: &Totals, text: &mut Text) -> Result<(), NoMemory>
    ensures { OnOk result (text.new ≡ text.old ++ totals_line totals.now) }
{
    add_number(b"fires=", totals.fires, text)?;
    add_number(b" copies=", totals.copies, text)?;
    add_number(b" writes=", totals.writes, text)?;
    text.add(b'\n')
}

/// Appends the line of the totals of a run, where it is asked for.
fn add_totals_if(totals: &Totals, stats: bool, text: &mut Text) -> Result<(), NoMemory>
    ensures { OnOk result (text.new ≡ text.old ++ totals_if stats totals.now) }
{
    if stats {
        add_totals(totals, text)
    } else {
        Ok(())
    }
}

/// Each value of a run on a line, and where it is asked for the line of its totals.
pub fn print_run(alloc: Global, totals: &Totals, stats: bool) -> Result<Text, NoMemory>
    ensures { IfOk result (λ text. text ≡ lines totals.now.results ++ totals_if stats totals.now) }
{
    let mut text = print_all(alloc, totals.results.as_slice())?;
    add_totals_if(totals, stats, &mut text)?;
    Ok(text)
}
