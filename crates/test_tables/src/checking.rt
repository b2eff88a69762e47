//! A text through the lexer, the parser and the checker: typed, or the rule that it breaks with the line.
use crate::MOST_BYTES;
use sisal_check::{check, units_of_texts_are_texts};
use sisal_lex::lex;
use sisal_parse::parse;
use std::alloc::Global;
use std::io;
use type_rules::TypeFault;

/// What a text is.
enum Answer {
    Typed,
    Broken(u8, u32),
    NoUnit,
    NoMemory,
}

/// What a text is.
fn told(alloc: Global, text: &[u8]) -> Answer {
    if text.len() > MOST_BYTES {
        return Answer::NoUnit;
    }
    let Ok(tokens) = lex(alloc, text) else {
        return Answer::NoUnit;
    };
    let Ok(unit) = parse(alloc, tokens) else {
        return Answer::NoUnit;
    };
    units_of_texts_are_texts();
    match check(alloc, unit) {
        Ok(_) => Answer::Typed,
        Err(TypeFault::Rule { rule, line }) => Answer::Broken(rule, line),
        Err(TypeFault::NoMemory) => Answer::NoMemory,
    }
}

/// Prints what a row is, which has a name, a colon and a text, in which `@` stands for a line feed.
pub fn tell(rt: HostRuntime, row: &str) -> io::Result<()> {
    let row = row.replace(rt.alloc(), "@", "\n")?;
    let Some((name, text)) = row.split_once(':') else {
        return println!(rt; "no name");
    };
    match told(rt.alloc(), text.as_bytes()) {
        Answer::Typed => println!(rt; "{name}: ok"),
        Answer::Broken(rule, line) => println!(rt; "{name}: type rule {rule} line {line}"),
        Answer::NoUnit => println!(rt; "{name}: no unit"),
        Answer::NoMemory => println!(rt; "{name}: no memory"),
    }
}
