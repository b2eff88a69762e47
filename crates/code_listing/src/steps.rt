//! The lines of steps.
use crate::names::simple_name;
use crate::operands::{put_collects, put_operand, put_operands, put_targets};
use flow_value::{NoMemory, Text};
use if1_graph::Simple;
use step_code::{Code, Counted, Operand, SparseRow, Step, Written};
use unit_drawing::put_numbered;

/// The cells that are written: `> c5`, or `> c5 x3` for three from it on.
fn put_outs(text: &mut Text, out: u32, width: u32) -> Result<(), NoMemory> {
    put_numbered(text, b" > c", out)?;
    if width == 1 {
        return Ok(());
    }
    put_numbered(text, b" x", width)
}

/// What a step does where an operand is an error: it writes errors and goes on.
fn put_else(text: &mut Text, out: u32, width: u32, next: u32) -> Result<(), NoMemory> {
    text.extend(b"; error")?;
    put_outs(text, out, width)?;
    put_numbered(text, b" to ", next)
}

fn written_words(written: Written) -> &'static [u8] {
    match written {
        Written::Nothing => b"",
        Written::Elements => b"; writes elements",
        Written::Catenated => b"; writes elements where it catenates",
    }
}

fn counted_words(counted: Counted) -> &'static [u8] {
    match counted {
        Counted::Nothing => b"",
        Counted::Operands => b"; counts copied operands",
        Counted::Outputs(mark) => b"; counts copied outputs",
        Counted::Elements => b"; counts copied elements",
        Counted::Last => b"; counts the copied last element",
        Counted::Filling => b"; counts copied fillings",
    }
}

/// The name of a node and its operands.
fn put_node(
    text: &mut Text,
    code: &Code,
    row: Simple,
    ins: u32,
    many: u32,
) -> Result<(), NoMemory> {
    text.extend(b" ")?;
    text.extend(simple_name(row))?;
    put_operands(text, code, ins, many)
}

fn put_pair(text: &mut Text, code: &Code, left: Operand, right: Operand) -> Result<(), NoMemory> {
    put_operand(text, code, left)?;
    put_operand(text, code, right)
}

/// A step that fires a node.
fn put_firing(text: &mut Text, code: &Code, step: &Step) -> Result<(), NoMemory> {
    match step {
        Step::One { op, from, out } => {
            text.extend(b" ")?;
            text.extend(simple_name(Simple::One(*op)))?;
            put_operand(text, code, *from)?;
            put_outs(text, *out, 1)
        }
        Step::Two {
            op,
            left,
            right,
            out,
        } => {
            text.extend(b" ")?;
            text.extend(simple_name(Simple::Two(*op)))?;
            put_pair(text, code, *left, *right)?;
            put_outs(text, *out, 1)
        }
        Step::Fire {
            row,
            written,
            ins,
            many,
            out,
            width,
            counted,
            ..
        } => {
            put_node(text, code, *row, *ins, *many)?;
            put_outs(text, *out, *width)?;
            text.extend(written_words(*written))?;
            text.extend(counted_words(*counted))
        }
        _ => put_celled(text, code, step),
    }
}

fn put_cell(text: &mut Text, cell: u32) -> Result<(), NoMemory> {
    put_numbered(text, b" c", cell)
}

/// A step that fires a node and names its cells.
fn put_celled(text: &mut Text, code: &Code, step: &Step) -> Result<(), NoMemory> {
    match step {
        Step::Int { from, out } => {
            text.extend(b" Int")?;
            put_cell(text, *from)?;
            put_outs(text, *out, 1)
        }
        Step::Cells {
            op,
            left,
            right,
            out,
        } => {
            text.extend(b" ")?;
            text.extend(simple_name(Simple::Two(*op)))?;
            put_cell(text, *left)?;
            put_cell(text, *right)?;
            put_outs(text, *out, 1)
        }
        Step::Number {
            op,
            left,
            literal,
            out,
            ..
        } => {
            text.extend(b" ")?;
            text.extend(simple_name(Simple::Two(*op)))?;
            put_cell(text, *left)?;
            put_operand(text, code, Operand::Literal(*literal))?;
            put_outs(text, *out, 1)
        }
        _ => put_placed(text, code, step),
    }
}

/// A step that reads or replaces an element.
fn put_placed(text: &mut Text, code: &Code, step: &Step) -> Result<(), NoMemory> {
    match step {
        Step::Element {
            ins,
            out,
            counted,
            ..
        } => {
            put_node(text, code, Simple::AElement, *ins, 2)?;
            put_outs(text, *out, 1)?;
            text.extend(counted_words(*counted))
        }
        Step::Replace {
            ins,
            out,
            counted,
            ..
        } => {
            put_node(text, code, Simple::AReplace, *ins, 3)?;
            put_outs(text, *out, 1)?;
            text.extend(counted_words(*counted))
        }
        _ => Ok(()),
    }
}

fn sparse_words(row: SparseRow) -> &'static [u8] {
    match row {
        SparseRow::Union => b" RBuild union",
        SparseRow::Record => b" RBuild",
        SparseRow::Change => b" RReplace",
    }
}

/// An operand of a node of whose ports few are filled, behind how many that are not.
fn put_behind(text: &mut Text, code: &Code, gap: usize, at: usize) -> Result<(), NoMemory> {
    if let Some(empty) = code.targets.as_slice().get(gap) {
        put_numbered(text, b" +", *empty)?;
    }
    match code.operands.as_slice().get(at) {
        Some(from) => put_operand(text, code, *from),
        None => Ok(()),
    }
}

fn put_sparse(
    text: &mut Text,
    code: &Code,
    gaps: u32,
    ins: u32,
    many: u32,
) -> Result<(), NoMemory> {
    for place in 0..many {
        let behind = place as usize;
        put_behind(text, code, gaps as usize + behind, ins as usize + behind)?;
    }
    Ok(())
}

/// A step that brings values to cells.
fn put_bringing(text: &mut Text, code: &Code, step: &Step) -> Result<(), NoMemory> {
    match step {
        Step::Sparse {
            row,
            gaps,
            ins,
            many,
            out,
            copies,
        } => {
            text.extend(sparse_words(*row))?;
            put_sparse(text, code, *gaps, *ins, *many)?;
            put_outs(text, *out, 1)?;
            text.extend(if *copies {
                b"; counts copied operands"
            } else {
                b""
            })
        }
        Step::Bring { from, out, next } => {
            text.extend(b" bring")?;
            put_operand(text, code, *from)?;
            put_outs(text, *out, 1)?;
            put_numbered(text, b" to ", *next)
        }
        Step::Move {
            froms,
            many,
            out,
            width,
            next,
        } => {
            text.extend(b" move")?;
            put_operands(text, code, *froms, *many)?;
            put_outs(text, *out, *width)?;
            put_numbered(text, b" to ", *next)
        }
        _ => put_firing(text, code, step),
    }
}

/// A step that goes on at one of several places.
fn put_choice(text: &mut Text, code: &Code, step: &Step) -> Result<(), NoMemory> {
    match step {
        Step::Tag {
            union,
            targets,
            many,
            content,
            out,
            width,
            next,
            ..
        } => {
            text.extend(b" tag")?;
            put_operand(text, code, *union)?;
            put_outs(text, *content, 1)?;
            text.extend(b" to")?;
            put_targets(text, code, *targets, *many)?;
            put_else(text, *out, *width, *next)
        }
        Step::Branch {
            selector,
            targets,
            many,
            out,
            width,
            next,
        } => {
            text.extend(b" branch")?;
            put_operand(text, code, *selector)?;
            text.extend(b" to")?;
            put_targets(text, code, *targets, *many)?;
            put_else(text, *out, *width, *next)
        }
        _ => put_bringing(text, code, step),
    }
}

/// A step of a loop that begins or tests a turn.
fn put_turn(text: &mut Text, code: &Code, step: &Step) -> Result<(), NoMemory> {
    match step {
        Step::Test {
            test,
            turn,
            leave,
            out,
            width,
            next,
        } => {
            text.extend(b" test")?;
            put_operand(text, code, *test)?;
            put_numbered(text, b" turn ", *turn)?;
            put_numbered(text, b" leave ", *leave)?;
            put_else(text, *out, *width, *next)
        }
        Step::Each {
            multiples,
            many,
            from,
            count,
            turn,
            leave,
            ..
        } => {
            text.extend(b" each")?;
            put_operands(text, code, *multiples, *many)?;
            put_numbered(text, b" from c", *from)?;
            put_numbered(text, b" count c", *count)?;
            put_numbered(text, b" turn ", *turn)?;
            put_numbered(text, b" leave ", *leave)
        }
        _ => put_choice(text, code, step),
    }
}

/// A step of a loop that keeps values.
fn put_keeping(text: &mut Text, code: &Code, step: &Step) -> Result<(), NoMemory> {
    match step {
        Step::Keep {
            begins,
            collects,
            count,
            froms,
            many,
            out,
            next,
        } => {
            text.extend(if *begins { b" begin" } else { b" keep" })?;
            put_operands(text, code, *froms, *many)?;
            put_outs(text, *out, *many)?;
            put_collects(text, code, *collects, *count)?;
            put_numbered(text, b" to ", *next)
        }
        Step::Carry {
            begins,
            froms,
            many,
            out,
            next,
            ..
        } => {
            text.extend(if *begins { b" begin" } else { b" keep" })?;
            put_operands(text, code, *froms, *many)?;
            put_outs(text, *out, *many)?;
            put_numbered(text, b" to ", *next)
        }
        Step::Add {
            collects,
            count,
            froms,
            many,
            out,
            next,
        } => {
            text.extend(b" add")?;
            put_operands(text, code, *froms, *many)?;
            put_outs(text, *out, *count)?;
            put_collects(text, code, *collects, *count)?;
            put_numbered(text, b" to ", *next)
        }
        Step::Push {
            collects,
            from,
            out,
            next,
            ..
        } => {
            text.extend(b" add")?;
            put_cell(text, *from)?;
            put_outs(text, *out, 1)?;
            put_collects(text, code, *collects, 1)?;
            put_numbered(text, b" to ", *next)
        }
        _ => put_turn(text, code, step),
    }
}

/// What a step does.
pub fn put_step(text: &mut Text, code: &Code, step: &Step) -> Result<(), NoMemory> {
    match step {
        Step::Count => text.extend(b" count"),
        Step::Spread {
            froms,
            many,
            collects,
            count,
            to,
            turns,
            out,
            width,
            next,
        } => {
            text.extend(b" spread")?;
            put_operands(text, code, *froms, *many)?;
            put_outs(text, *to, *many)?;
            put_collects(text, code, *collects, *count)?;
            put_numbered(text, b" to ", *turns)?;
            put_else(text, *out, *width, *next)
        }
        Step::Call {
            entry,
            room,
            args,
            many,
            out,
            width,
            ..
        } => {
            put_numbered(text, b" call ", *entry)?;
            put_numbered(text, b" room ", *room)?;
            put_operands(text, code, *args, *many)?;
            put_outs(text, *out, *width)
        }
        Step::Return { froms, many } => {
            text.extend(b" return")?;
            put_operands(text, code, *froms, *many)
        }
        _ => put_keeping(text, code, step),
    }
}
