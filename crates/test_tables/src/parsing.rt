//! A text through the lexer and the parser: a unit with so many types and functions, or its fault.
use crate::MOST_BYTES;
use sisal_lex::{LexFault, lex};
use sisal_parse::{ParseFault, parse};
use std::alloc::Global;
use std::io;

/// What a text is.
enum Answer {
    Unit(usize),
    Lex(u32, u32),
    Token(u32, u32),
    Deep(u32),
    Nothing,
}

/// What a fault of a token is.
fn lexical(fault: LexFault) -> Answer {
    match fault {
        LexFault::BadByte(line) => Answer::Lex(1, line),
        LexFault::NumberTooWide(line) => Answer::Lex(2, line),
        LexFault::OpenText(line) => Answer::Lex(3, line),
        LexFault::TooLong | LexFault::NoMemory => Answer::Nothing,
    }
}

/// What a fault of the parser is.
fn syntactic(fault: ParseFault) -> Answer {
    match fault {
        ParseFault::Syntax { token, line } => Answer::Token(token, line),
        ParseFault::TooDeep(line) => Answer::Deep(line),
        ParseFault::NoMemory => Answer::Nothing,
    }
}

/// What a text is.
fn told(alloc: Global, text: &[u8]) -> Answer {
    if text.len() > MOST_BYTES {
        return Answer::Nothing;
    }
    match lex(alloc, text) {
        Ok(tokens) => match parse(alloc, tokens) {
            Ok(unit) => Answer::Unit(unit.items.len()),
            Err(fault) => syntactic(fault),
        },
        Err(fault) => lexical(fault),
    }
}

/// Prints what a text is, in which `@` stands for a line feed.
pub fn tell(rt: HostRuntime, row: &str) -> io::Result<()> {
    let text = row.replace(rt.alloc(), "@", "\n")?;
    match told(rt.alloc(), text.as_bytes()) {
        Answer::Unit(items) => println!(rt; "unit {items}"),
        Answer::Lex(kind, line) => println!(rt; "lex {kind} line {line}"),
        Answer::Token(token, line) => println!(rt; "token {token} line {line}"),
        Answer::Deep(line) => println!(rt; "depth line {line}"),
        Answer::Nothing => println!(rt; "no answer"),
    }
}
