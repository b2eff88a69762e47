//! A line that is read.
use flow_value::{Cause, Held, Items, NoMemory, Outputs, Shape, Val, array_of};
use if1_graph::{Simple, simple_of};
use std::alloc::Global;

/// A node with its operands and its outputs.
#[derive(Drop)]
pub struct Line {
    /// The operation; a call where there is none.
    pub op: Simple,
    /// The shape.
    pub shape: Shape,
    /// The operands by port.
    pub operands: Vec<Option<Val>>,
    /// The outputs that it must give.
    pub outputs: Outputs,
}

impl Line {
    /// The node of a line.
    pub fn read(alloc: Global, row: &str) -> Result<Line, NoMemory> {
        let (head, outputs) = row.split_once("\t=").unwrap_or((row, ""));
        let mut operands = Vec::new(alloc);
        let mut op = Simple::Call;
        let mut shape = Shape::Plain;
        for (place, field) in head.split('\t').enumerate() {
            match place {
                0 => op = operation(field),
                1 => shape = shape_of(field),
                _ => operands.push(value(alloc, field)?)?,
            }
        }
        Ok(Line {
            op,
            shape,
            operands,
            outputs: values(alloc, outputs)?,
        })
    }
}

fn operation(field: &str) -> Simple {
    match field.parse::<u32>() {
        Ok(number) => simple_of(number).unwrap_or(Simple::Call),
        Err(_) => Simple::Call,
    }
}

fn shape_of(field: &str) -> Shape {
    match field {
        "stream" => Shape::Stream,
        "union" => Shape::Union,
        "3" => Shape::Fields(3),
        _ => Shape::Plain,
    }
}

/// The values of fields, of which each begins with a tab.
fn values(alloc: Global, fields: &str) -> Result<Outputs, NoMemory> {
    let mut all = Outputs::new(alloc);
    for field in fields.split('\t') {
        if let Some(one) = value(alloc, field)? {
            all.add(one)?;
        }
    }
    Ok(all)
}

/// The value of a field, if it has one.
fn value(alloc: Global, field: &str) -> Result<Option<Val>, NoMemory> {
    let mut stack = Vec::new(alloc);
    for word in field.split(' ') {
        read_word(alloc, &mut stack, word)?;
    }
    Ok(stack.pop())
}

fn read_word(alloc: Global, stack: &mut Vec<Val>, word: &str) -> Result<(), NoMemory> {
    if let Ok(number) = word.parse::<i64>() {
        stack.push(Val::Int(number))?;
        return Ok(());
    }
    if let Some(made) = aggregate(alloc, stack, word)? {
        stack.push(made)?;
        return Ok(());
    }
    if let Some(plain) = scalar(word) {
        stack.push(plain)?;
    }
    Ok(())
}

fn scalar(word: &str) -> Option<Val> {
    match word {
        "T" => Some(Val::Bool(true)),
        "F" => Some(Val::Bool(false)),
        "nil" => Some(Val::Null),
        "overflow" => Some(Val::Err(Cause::Overflow)),
        "zero" => Some(Val::Err(Cause::Zero)),
        "bounds" => Some(Val::Err(Cause::Bounds)),
        "empty" => Some(Val::Err(Cause::Empty)),
        "size" => Some(Val::Err(Cause::Size)),
        "tag" => Some(Val::Err(Cause::Tag)),
        "explicit" => Some(Val::Err(Cause::Explicit)),
        _ => None,
    }
}

/// The value that a word makes of the values before it.
fn aggregate(alloc: Global, stack: &mut Vec<Val>, word: &str) -> Result<Option<Val>, NoMemory> {
    let Some(kind) = word.as_bytes().first() else {
        return Ok(None);
    };
    let (lo, count) = numbers(word);
    match *kind {
        b'[' => Ok(Some(array_of(lo, taken_off(alloc, stack, count)?))),
        b'{' => Ok(Some(Val::Stream(taken_off(alloc, stack, count)?))),
        b'<' => Ok(Some(Val::Rec(taken_off(alloc, stack, count)?))),
        b'(' => union_of(alloc, stack, count),
        b'c' => Ok(u8::try_from(count).ok().map(Val::Char)),
        _ => Ok(None),
    }
}

/// The lower bound and the number that a word has behind its first character.
fn numbers(word: &str) -> (i64, u32) {
    let (_, behind) = word.split_at_checked(1).unwrap_or(("", ""));
    let (lo, count) = behind.split_once(':').unwrap_or(("1", behind));
    (
        lo.parse::<i64>().unwrap_or(1),
        count.parse::<u32>().unwrap_or(0),
    )
}

fn taken_off(alloc: Global, stack: &mut Vec<Val>, count: u32) -> Result<Items, NoMemory> {
    let from = stack.len().saturating_sub(count as usize);
    let mut items = Items::new(alloc);
    for v in stack.split_off(from)? {
        items.add(v)?;
    }
    Ok(items)
}

fn union_of(alloc: Global, stack: &mut Vec<Val>, tag: u32) -> Result<Option<Val>, NoMemory> {
    match stack.pop() {
        Some(content) => Ok(Some(Val::Uni(tag, Held::new(alloc, content)?))),
        None => Ok(None),
    }
}
