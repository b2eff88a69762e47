//! Does with an IF1 text on standard input what its word names, for a script of `bench/` to time: `marks`,
//! `code` or `answers`; what is printed tells what was done. Without words each line of standard input is such
//! a call: its word, a tab, and its text, in which `@` stands for a line feed; then the word is printed before
//! the call.
#![tactic(auto)]

mod answers;
mod code;
mod graphs;
mod marks;
mod ready;
mod shapes;
mod told;

use flow_io::{ReaderSource, read_all};
use std::io::{BufRead, BufReader};
use std::{env, io};

/// The most bytes of a text.
const MOST_BYTES: usize = 16777216;

/// Does what a word names with a text.
fn call(rt: HostRuntime, word: &str, text: &[u8]) -> io::Result<()> {
    if text.len() > MOST_BYTES {
        return println!(rt; "no text");
    }
    match word {
        "marks" => marks::timed(rt, text),
        "code" => code::timed(rt, text),
        "answers" => answers::timed(rt, text),
        _ => println!(rt; "no such work"),
    }
}

/// Does what a word names with the text on standard input.
fn call_on_input(rt: HostRuntime, word: &str) -> io::Result<()> {
    let mut from = ReaderSource::new(rt.stdin());
    match read_all(rt.alloc(), &mut from, MOST_BYTES) {
        Ok(text) => call(rt, word, text.as_slice()),
        Err(_) => println!(rt; "no text"),
    }
}

/// Makes the call of each line of standard input.
fn call_lines(rt: HostRuntime) -> io::Result<()> {
    let reader = BufReader::new(rt.alloc(), rt.stdin())?;
    for line in reader.lines(rt.alloc()) {
        let row = line?.replace(rt.alloc(), "@", "\n")?;
        let (word, text) = row.split_once('\t').unwrap_or((row.as_str(), ""));
        println!(rt; "{word}")?;
        call(rt, word, text.as_bytes())?;
    }
    Ok(())
}

fn main(rt: HostRuntime) -> io::Result<()> {
    let words = env::args(&rt)?.skip(1).collect::<Vec<String>>(rt.alloc())?;
    match words.as_slice() {
        [] => call_lines(rt),
        [word, ..] => call_on_input(rt, word.as_str()),
    }
}
