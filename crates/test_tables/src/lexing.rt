//! A text through the lexer: its tokens, each behind the number of its line, and the names that it has; or
//! its fault.
use sisal_lex::{Kind, Tokens, lex};
use std::alloc::{AllocError, Global};
use std::io;

/// Puts what a token is behind a text.
fn put_kind(alloc: Global, out: &mut String, kind: &Kind) -> Result<(), AllocError> {
    let shown = match kind {
        Kind::Word(word) => format!(in alloc; "{word:?}")?,
        Kind::Sign(sign) => format!(in alloc; "{sign:?}")?,
        Kind::Id(k) => format!(in alloc; "#{k}")?,
        Kind::Number(n) => format!(in alloc; "{n}")?,
        Kind::Letter(code) => format!(in alloc; "'{code}")?,
        Kind::Quoted(codes) => format!(in alloc; "{:?}", codes.as_slice())?,
    };
    out.push_str(shown.as_str())
}

/// The tokens of a text and its names.
fn shown(alloc: Global, tokens: &Tokens) -> Result<String, AllocError> {
    let mut out = String::new(alloc);
    for token in tokens.list.as_slice() {
        let line = token.line;
        let place = format!(in alloc; "{line}:")?;
        out.push_str(place.as_str())?;
        put_kind(alloc, &mut out, &token.kind)?;
        out.push(' ')?;
    }
    out.push('|')?;
    for name in tokens.names.as_slice() {
        out.push(' ')?;
        for byte in name.as_slice() {
            out.push(char::from(*byte))?;
        }
    }
    Ok(out)
}

/// Prints what the lexer says of a text, in which `@` stands for a line feed.
pub fn tell(rt: HostRuntime, row: &str) -> io::Result<()> {
    let text = row.replace(rt.alloc(), "@", "\n")?;
    match lex(rt.alloc(), text.as_bytes()) {
        Ok(tokens) => match shown(rt.alloc(), &tokens) {
            Ok(all) => println!(rt; "{all}"),
            Err(_) => println!(rt; "no memory"),
        },
        Err(fault) => println!(rt; "{fault:?}"),
    }
}
