//! Tries each line of standard input, which has a word, a tab and a row of that word's table, and prints
//! what is to be seen of the row: `lex` a text through the lexer, `parse` through the parser, `check` through
//! the checker, `node` a simple node on operands. The stored run has each production of the grammar, with
//! what may be absent there and absent, and each token refused somewhere; each of the typing rules 1 to 23
//! broken in two ways and more, beside each the nearest text that is right, and texts of two faults, of
//! which the first is named; ordinary, boundary and error operands of each row of the table of nodes. What
//! it must print comes from a separate implementation.
#![tactic(auto)]

mod checking;
mod fired;
mod firing;
mod lexing;
mod line;
mod parsing;

use std::io;
use std::io::{BufRead, BufReader};

/// The most bytes of a text.
const MOST_BYTES: usize = 4194304;

/// Prints what is to be seen of a row of the table that a word names.
fn tell(rt: HostRuntime, table: &str, row: &str) -> io::Result<()> {
    match table {
        "lex" => lexing::tell(rt, row),
        "parse" => parsing::tell(rt, row),
        "check" => checking::tell(rt, row),
        "node" => firing::tell(rt, row),
        _ => println!(rt; "no such table"),
    }
}

fn main(rt: HostRuntime) -> io::Result<()> {
    let reader = BufReader::new(rt.alloc(), rt.stdin())?;
    for line in reader.lines(rt.alloc()) {
        let row = line?;
        let (table, rest) = row.split_once('\t').unwrap_or(("", ""));
        tell(rt, table, rest)?;
    }
    Ok(())
}
