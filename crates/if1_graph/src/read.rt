//! Lines as they are read.
ghost use Rattle.std.specs.Prelude.{◌≡◌, IfOk, drop};
ghost use Rattle.if1_graph.specs.LineParts.{parts_of};
ghost use Rattle.if1_graph.specs.Entries.{entry_numbers};
ghost use Rattle.if1_graph.specs.Places.{placed};
ghost use Rattle.if1_graph.specs.Reading.{quoted_first, entry_line, node_line, edge_line, literal_line, typed_name, function_line, import_line, graph_line, close_line, letter_first, line_by, line_begun, line_of};

use crate::line::{EntryForm, Line, entry_form};
use crate::line_part::{PartAt, has_line_bytes_only, is_blank, next_part, word_of};
use crate::number::{number, numbers};
use crate::pragma::{has_pragmas_only, named, preceded, takes};
use flow_value::{Name, NoMemory, Text};
use std::alloc::Global;

/// The text in quotes at a place, and the place behind it.
fn quoted(alloc: Global, line: &[u8], at: usize) -> Result<Option<(Text, usize)>, NoMemory>
    ensures { IfOk result (λ r. quoted_first (parts_of (drop at line.now)) ≡ placed line.now r) }
{
    let Some((part, rest)) = next_part(line, at) else {
        return Ok(None);
    };
    match part {
        PartAt::Quoted(from, end) => Ok(Some((Text::from_slice(alloc, &line[from..end])?, rest))),
        _ => Ok(None),
    }
}

fn entry_numbers(form: EntryForm, line: &[u8], at: usize) -> Option<((u32, u32), usize)>
    ensures { entry_numbers form (parts_of (drop at line.now)) ≡ placed line.now result }
{
    match form {
        EntryForm::OneLabel => {
            let (first, rest) = number(line, at, 1)?;
            Some(((first, 0), rest))
        }
        EntryForm::Basic => {
            let (first, rest) = number(line, at, 0)?;
            if first <= 6 {
                Some(((first, 0), rest))
            } else {
                None
            }
        }
        EntryForm::Member => {
            let (first, rest) = number(line, at, 1)?;
            let (second, rest) = number(line, rest, 0)?;
            Some(((first, second), rest))
        }
        EntryForm::Function => {
            let (first, rest) = number(line, at, 0)?;
            let (second, rest) = number(line, rest, 1)?;
            Some(((first, second), rest))
        }
    }
}

fn entry_line(alloc: Global, line: &[u8], at: usize) -> Result<Option<Line>, NoMemory>
    ensures { IfOk result (λ r. r ≡ entry_line (parts_of (drop at line.now))) }
{
    let Some((label, at)) = number(line, at, 1) else {
        return Ok(None);
    };
    let Some((code, at)) = number(line, at, 0) else {
        return Ok(None);
    };
    let Some(form) = entry_form(code) else {
        return Ok(None);
    };
    let Some(((first, second), at)) = entry_numbers(form, line, at) else {
        return Ok(None);
    };
    let Some(name) = named(alloc, line, at)? else {
        return Ok(None);
    };
    Ok(Some(Line::Entry {
        label,
        code,
        first,
        second,
        name,
    }))
}

fn node_line(alloc: Global, line: &[u8], at: usize) -> Result<Option<Line>, NoMemory>
    ensures { IfOk result (λ r. r ≡ node_line (parts_of (drop at line.now))) }
{
    let Some((label, at)) = number(line, at, 1) else {
        return Ok(None);
    };
    let Some((op, at)) = number(line, at, 0) else {
        return Ok(None);
    };
    let Some(name) = named(alloc, line, at)? else {
        return Ok(None);
    };
    let Some(before) = preceded(alloc, line, at)? else {
        return Ok(None);
    };
    Ok(Some(Line::Node {
        label,
        op,
        before,
        name,
    }))
}

fn edge_line(alloc: Global, line: &[u8], at: usize) -> Result<Option<Line>, NoMemory>
    ensures { IfOk result (λ r. r ≡ edge_line (parts_of (drop at line.now))) }
{
    let Some((from, at)) = number(line, at, 0) else {
        return Ok(None);
    };
    let Some((out, at)) = number(line, at, 1) else {
        return Ok(None);
    };
    let Some((node, at)) = number(line, at, 0) else {
        return Ok(None);
    };
    let Some((port, at)) = number(line, at, 1) else {
        return Ok(None);
    };
    let Some((ty, at)) = number(line, at, 1) else {
        return Ok(None);
    };
    let Some(name) = named(alloc, line, at)? else {
        return Ok(None);
    };
    Ok(Some(Line::Edge {
        from,
        out,
        node,
        port,
        ty,
        takes: takes(line, at),
        name,
    }))
}

fn literal_line(alloc: Global, line: &[u8], at: usize) -> Result<Option<Line>, NoMemory>
    ensures { IfOk result (λ r. r ≡ literal_line (parts_of (drop at line.now))) }
{
    let Some((node, at)) = number(line, at, 0) else {
        return Ok(None);
    };
    let Some((port, at)) = number(line, at, 1) else {
        return Ok(None);
    };
    let Some((ty, at)) = number(line, at, 1) else {
        return Ok(None);
    };
    let Some((text, at)) = quoted(alloc, line, at)? else {
        return Ok(None);
    };
    let Some(name) = named(alloc, line, at)? else {
        return Ok(None);
    };
    Ok(Some(Line::Literal {
        node,
        port,
        ty,
        text,
        name,
    }))
}

/// A type and a name, with nothing but pragmas behind them.
fn typed_name(alloc: Global, line: &[u8], at: usize) -> Result<Option<(u32, Name)>, NoMemory>
    ensures { IfOk result (λ r. r ≡ typed_name (parts_of (drop at line.now))) }
{
    let Some((ty, at)) = number(line, at, 1) else {
        return Ok(None);
    };
    let Some((name, at)) = quoted(alloc, line, at)? else {
        return Ok(None);
    };
    if has_pragmas_only(line, at) {
        Ok(Some((ty, name)))
    } else {
        Ok(None)
    }
}

fn function_line(
    alloc: Global,
    exported: bool,
    line: &[u8],
    at: usize,
) -> Result<Option<Line>, NoMemory>
    ensures { IfOk result (λ r. r ≡ function_line exported (parts_of (drop at line.now))) }
{
    match typed_name(alloc, line, at)? {
        Some((fun, name)) => Ok(Some(Line::Function {
            exported,
            fun,
            name,
        })),
        None => Ok(None),
    }
}

fn import_line(alloc: Global, line: &[u8], at: usize) -> Result<Option<Line>, NoMemory>
    ensures { IfOk result (λ r. r ≡ import_line (parts_of (drop at line.now))) }
{
    match typed_name(alloc, line, at)? {
        Some((ty, name)) => Ok(Some(Line::Import { ty, name })),
        None => Ok(None),
    }
}

fn graph_line(alloc: Global, line: &[u8], at: usize) -> Result<Option<Line>, NoMemory>
    ensures { IfOk result (λ r. r ≡ graph_line (parts_of (drop at line.now))) }
{
    match number(line, at, 0) {
        Some((0, rest)) => match named(alloc, line, rest)? {
            Some(name) => Ok(Some(Line::Subgraph { name })),
            None => Ok(None),
        },
        Some(_) => function_line(alloc, false, line, at),
        None => Ok(None),
    }
}

fn close_line(alloc: Global, line: &[u8], at: usize) -> Result<Option<Line>, NoMemory>
    ensures { IfOk result (λ r. r ≡ close_line (parts_of (drop at line.now))) }
{
    let Some((label, at)) = number(line, at, 1) else {
        return Ok(None);
    };
    let Some((op, at)) = number(line, at, 0) else {
        return Ok(None);
    };
    let Some((count, at)) = number(line, at, 0) else {
        return Ok(None);
    };
    let Some((assoc, at)) = numbers(alloc, line, at)? else {
        return Ok(None);
    };
    let Some(name) = named(alloc, line, at)? else {
        return Ok(None);
    };
    let Some(before) = preceded(alloc, line, at)? else {
        return Ok(None);
    };
    Ok(Some(Line::Close {
        label,
        op,
        count,
        assoc,
        before,
        name,
    }))
}

/// The letter that stands alone at a place, and the place behind it.
fn letter(line: &[u8], at: usize) -> Option<(u8, usize)>
    ensures { letter_first (parts_of (drop at line.now)) ≡ placed line.now result }
{
    let (part, rest) = next_part(line, at)?;
    let word = word_of(line, part);
    if word.len() == 1 {
        Some((word[0], rest))
    } else {
        None
    }
}

fn line_by(alloc: Global, letter: u8, line: &[u8], at: usize) -> Result<Option<Line>, NoMemory>
    ensures { IfOk result (λ r. r ≡ line_by letter (parts_of (drop at line.now))) }
{
    match letter {
        b'T' => entry_line(alloc, line, at),
        b'N' => node_line(alloc, line, at),
        b'E' => edge_line(alloc, line, at),
        b'L' => literal_line(alloc, line, at),
        b'X' => function_line(alloc, true, line, at),
        b'G' => graph_line(alloc, line, at),
        b'I' => import_line(alloc, line, at),
        b'}' => close_line(alloc, line, at),
        _ => Ok(None),
    }
}

/// The line that begins behind the blanks from a place on.
fn line_begun(alloc: Global, line: &[u8], from: usize) -> Result<Option<Line>, NoMemory>
    ensures { IfOk result (λ r. r ≡ line_begun (drop from line.now)) }
{
    let mut at = from;
    while at < line.len() && is_blank(line[at]) {
        at += 1;
    }
    if at >= line.len() || line[at] == b'C' {
        return Ok(Some(Line::Blank));
    }
    if line[at] == b'{' {
        let rest = Text::from_slice(alloc, &line[at + 1..])?;
        return Ok(Some(Line::Open { rest }));
    }
    match letter(line, at) {
        Some((c, behind)) => line_by(alloc, c, line, behind),
        None => Ok(None),
    }
}

/// What a line of IF1 text says, given without the line feed, or carriage return and line feed, that
/// end it; none where it is no line of IF1 text (M-170, text form).
pub fn read_line(alloc: Global, bytes: &[u8]) -> Result<Option<Line>, NoMemory>
    ensures { IfOk result (λ line. line ≡ line_of bytes.now) }
{
    if has_line_bytes_only(bytes) {
        line_begun(alloc, bytes, 0)
    } else {
        Ok(None)
    }
}
