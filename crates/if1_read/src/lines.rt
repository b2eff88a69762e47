//! The lines of a text.
ghost use Rattle.std.specs.Prelude.{◌≡◌, ◌≤◌, length, map, IfOk};
ghost use Rattle.if1_graph.specs.TextLines.{lines_in};
ghost use Rattle.if1_read.specs.Faults as spec;

use flow_value::{NoMemory, Seq};
use if1_graph::{Line, next_line, read_line};
use std::alloc::Global;

/// Whether a line begins with `}` behind its blanks.
fn closes(line: &[u8]) -> bool
    ensures { result ≡ spec.closes line.now }
{
    for c in line {
        if *c != b' ' && *c != b'\t' {
            return *c == b'}';
        }
    }
    false
}

/// What a line says that does not read: one that begins with `}` closes its node, as one without a label.
fn unread(alloc: Global, closes: bool) -> Option<Line>
    ensures { result ≡ spec.row_by None closes }
{
    if closes {
        Some(Line::Close {
            label: 0,
            op: 0,
            count: 0,
            assoc: Seq::new(alloc),
            before: Seq::new(alloc),
            name: Seq::new(alloc),
        })
    } else {
        None
    }
}

fn row_of(alloc: Global, line: &[u8]) -> Result<Option<Line>, NoMemory>
    ensures { IfOk result (λ o. o ≡ spec.row_of line.now) }
{
    match read_line(alloc, line)? {
        Some(read) => Ok(Some(read)),
        None => Ok(unread(alloc, closes(line))),
    }
}

/// What each line of a text says; none where it is no line of IF1 text and closes no node.
pub fn read_lines(alloc: Global, text: &[u8]) -> Result<Seq<Option<Line>>, NoMemory>
    ensures rows { IfOk result (λ ls. ls ≡ spec.rows_of text.now) }
    ensures few { IfOk result (λ ls. length ls ≤ length text.now) }
{
    let mut lines = Seq::new(alloc);
    let mut at = 0;
    while let Some((end, next)) = next_line(text, at) {
        let line = row_of(alloc, &text[at..end])?;
        lines.add(line)?;
        at = next;
    }
    Ok(lines)
}
