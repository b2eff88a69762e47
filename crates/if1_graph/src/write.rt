//! Lines as they are written.
ghost use Rattle.std.specs.Prelude.{◌≡◌, ◌++◌, ◌∷◌, [], ◌≤◌, OnOk, OnErr, IfOk, codes, decimal, drop, length, map};
ghost use Rattle.if1_graph.specs.Entries.{entry_form};
ghost use Rattle.if1_graph.specs.Spelling.{number, name_part, take_part, before_part, entry_parts, function_letter, line_text, node_pragmas, after_blanks, after_commas, text_of, opening};
ghost use Rattle.if1_graph.specs.LineParts.{Quoted};
ghost use Rattle.if1_graph.specs.declared.line.Line.TheVariants as line;

use crate::line::{EntryForm, Line, entry_form};
use flow_value::{NoMemory, Text};
use itoa::Buffer;
use std::alloc::Global;

fn put_decimal(n: u32, to: &mut Text) -> Result<(), NoMemory>
    ensures { OnOk result (to.new ≡ to.old ++ decimal n) }
{
    let mut buffer = Buffer::new();
    to.extend(buffer.format(n).as_bytes())
}

/// Adds a number behind a blank.
fn put_number(n: u32, to: &mut Text) -> Result<(), NoMemory>
    ensures { OnOk result (to.new ≡ to.old ++ after_blanks (number n ∷ [])) }
{
    to.extend(b" ")?;
    put_decimal(n, to)
}

/// Adds a count behind a blank.
fn put_count(n: usize, to: &mut Text) -> Result<(), NoMemory>
    ensures { OnOk result (to.new ≡ to.old ++ after_blanks (number n ∷ [])) }
{
    to.extend(b" ")?;
    let mut buffer = Buffer::new();
    to.extend(buffer.format(n).as_bytes())
}

/// Adds numbers, each behind a blank.
fn put_numbers(ns: &[u32], to: &mut Text) -> Result<(), NoMemory>
    ensures { OnOk result (to.new ≡ to.old ++ after_blanks (map number ns.now)) }
{
    for n in ns {
        put_number(*n, to)?;
    }
    Ok(())
}

/// Adds a text in quotes behind a blank.
fn put_quoted(text: &[u8], to: &mut Text) -> Result<(), NoMemory>
    ensures { OnOk result (to.new ≡ to.old ++ after_blanks (Quoted text.now ∷ [])) }
{
    to.extend(b" \"")?;
    to.extend(text)?;
    to.extend(b"\"")
}

/// Adds the pragma of a name that is not empty.
fn put_name(name: &[u8], to: &mut Text) -> Result<(), NoMemory>
    ensures { OnOk result (to.new ≡ to.old ++ after_blanks (name_part name.now)) }
{
    if name.is_empty() {
        return Ok(());
    }
    to.extend(b" %na=")?;
    to.extend(name)
}

/// Adds the pragma of an edge that takes.
fn put_take(takes: bool, to: &mut Text) -> Result<(), NoMemory>
    ensures { OnOk result (to.new ≡ to.old ++ after_blanks (take_part takes)) }
{
    if takes { to.extend(b" %tk=1") } else { Ok(()) }
}

/// Adds the pragma of a list of labels that is not empty.
fn put_before(before: &[u32], to: &mut Text) -> Result<(), NoMemory>
    ensures { OnOk result (to.new ≡ to.old ++ after_blanks (before_part before.now)) }
{
    if before.is_empty() {
        return Ok(());
    }
    to.extend(b" %bf=")?;
    put_decimal(before[0], to)?;
    put_after_commas(before, 1, to)
}

/// Adds the numbers of a list from a place on, each behind a comma.
fn put_after_commas(ns: &[u32], from: usize, to: &mut Text) -> Result<(), NoMemory>
    requires { from ≤ length ns.now }
    ensures { OnOk result (to.new ≡ to.old ++ after_commas (drop from ns.now)) }
{
    for i in from..ns.len() {
        to.extend(b",")?;
        put_decimal(ns[i], to)?;
    }
    Ok(())
}

fn put_entry_numbers(
    form: Option<EntryForm>,
    first: u32,
    second: u32,
    to: &mut Text,
) -> Result<(), NoMemory>
    ensures { OnOk result (to.new ≡ to.old ++ after_blanks (entry_parts form first second)) }
{
    put_number(first, to)?;
    match form {
        Some(EntryForm::Member) | Some(EntryForm::Function) => put_number(second, to),
        _ => Ok(()),
    }
}

/// Adds the letter of a line, and its numbers, each behind a blank.
fn put_head(letter: u8, numbers: &[u32], to: &mut Text) -> Result<(), NoMemory>
    ensures { OnOk result (to.new ≡ to.old ++ letter ∷ after_blanks (map number numbers.now)) }
{
    to.add(letter)?;
    put_numbers(numbers, to)
}

/// Adds the pragmas of a node.
#[tactic(auto, using(crate::proofs::Written::after_blanks_append))]
fn put_node_pragmas(name: &[u8], before: &[u32], to: &mut Text) -> Result<(), NoMemory>
    ensures { OnOk result (to.new ≡ to.old ++ after_blanks (node_pragmas name.now before.now)) }
{
    put_name(name, to)?;
    put_before(before, to)
}

/// Adds the association list and the pragmas of a compound node.
fn put_lists(assoc: &[u32], name: &[u8], before: &[u32], to: &mut Text) -> Result<(), NoMemory>
    ensures { OnOk result (to.new ≡ to.old ++ after_blanks (map number assoc.now ++ node_pragmas name.now before.now)) }
{
    put_numbers(assoc, to)?;
    put_node_pragmas(name, before, to)
}

/// Adds the line with which a compound node ends, without the line feed that ends the line.
#[tactic(auto, using(crate::proofs::Written::after_blanks_append))]
fn put_close(
    label: u32,
    op: u32,
    graphs: usize,
    assoc: &[u32],
    before: &[u32],
    name: &[u8],
    to: &mut Text,
) -> Result<(), NoMemory>
    ensures { OnOk result (to.new ≡ to.old ++ line_text (line.Close label op graphs assoc.now before.now name.now)) }
{
    put_head(b'}', &[label, op], to)?;
    put_count(graphs, to)?;
    put_lists(assoc, name, before, to)
}

fn function_letter(exported: bool) -> u8
    ensures { result ≡ function_letter exported }
{
    if exported { b'X' } else { b'G' }
}

/// Adds a line without the line feed that ends it.
#[tactic(auto, using(crate::proofs::Written::after_blanks_append))]
fn put_line(line: &Line, to: &mut Text) -> Result<(), NoMemory>
    ensures { OnOk result (to.new ≡ to.old ++ line_text line.now) }
{
    match line {
        Line::Blank => Ok(()),
        Line::Entry {
            label,
            code,
            first,
            second,
            name,
        } => {
            put_head(b'T', &[*label, *code], to)?;
            put_entry_numbers(entry_form(*code), *first, *second, to)?;
            put_name(name.as_slice(), to)
        }
        Line::Node {
            label,
            op,
            before,
            name,
        } => {
            put_head(b'N', &[*label, *op], to)?;
            put_node_pragmas(name.as_slice(), before.as_slice(), to)
        }
        Line::Edge {
            from,
            out,
            node,
            port,
            ty,
            takes,
            name,
        } => {
            put_head(b'E', &[*from, *out, *node, *port, *ty], to)?;
            put_name(name.as_slice(), to)?;
            put_take(*takes, to)
        }
        Line::Literal {
            node,
            port,
            ty,
            text,
            name,
        } => {
            put_head(b'L', &[*node, *port, *ty], to)?;
            put_quoted(text.as_slice(), to)?;
            put_name(name.as_slice(), to)
        }
        Line::Function {
            exported,
            fun,
            name,
        } => {
            put_head(function_letter(*exported), &[*fun], to)?;
            put_quoted(name.as_slice(), to)
        }
        Line::Subgraph { name } => {
            put_head(b'G', &[0], to)?;
            put_name(name.as_slice(), to)
        }
        Line::Import { ty, name } => {
            put_head(b'I', &[*ty], to)?;
            put_quoted(name.as_slice(), to)
        }
        Line::Open { rest } => {
            to.extend(b"{")?;
            to.extend(rest.as_slice())
        }
        Line::Close {
            label,
            op,
            count,
            assoc,
            before,
            name,
        } => {
            let graphs = *count as usize;
            put_close(
                *label,
                *op,
                graphs,
                assoc.as_slice(),
                before.as_slice(),
                name.as_slice(),
                to,
            )
        }
    }
}

/// Appends the spelling of a line and the line feed that ends it. Where memory is wanting, `to` is as
/// before.
pub fn write_line(line: &Line, to: &mut Text) -> Result<(), NoMemory>
    ensures ok { OnOk result (to.new ≡ to.old ++ text_of (line.now ∷ [])) }
    ensures err { OnErr result (to.new ≡ to.old) }
{
    let mut piece = to.fresh();
    put_line(line, &mut piece)?;
    piece.extend(b"\n")?;
    to.extend(piece.as_slice())
}

/// Appends the line with which a compound node of so many graphs ends, however many they are. Where
/// memory is wanting, `to` is as before.
pub fn write_close(
    label: u32,
    op: u32,
    graphs: usize,
    assoc: &[u32],
    before: &[u32],
    name: &[u8],
    to: &mut Text,
) -> Result<(), NoMemory>
    ensures ok { OnOk result (to.new ≡ to.old ++ text_of (line.Close label op graphs assoc.now before.now name.now ∷ [])) }
    ensures err { OnErr result (to.new ≡ to.old) }
{
    let mut piece = to.fresh();
    put_close(label, op, graphs, assoc, before, name, &mut piece)?;
    piece.extend(b"\n")?;
    to.extend(piece.as_slice())
}

/// The line with which a compound node of this label and opcode begins.
pub fn opening(alloc: Global, label: u32, op: u32) -> Result<Line, NoMemory>
    ensures line { IfOk result (λ l. l ≡ opening label op) }
{
    let mut rest = Text::new(alloc);
    rest.extend(b" Compound ")?;
    put_decimal(label, &mut rest)?;
    put_number(op, &mut rest)?;
    Ok(Line::Open { rest })
}
