//! What a step reads, and to where it goes.
use flow_value::{NoMemory, Text, Val};
use run_cells::Cell;
use step_code::{Code, Collect, Hop, Operand, Route};
use unit_drawing::put_numbered;
use value_text::print_value;

fn put_scalar(text: &mut Text, value: Val) -> Result<(), NoMemory> {
    print_value(&value, text)
}

/// What stands in the cell of a literal: a scalar, or the name of a function or reduction.
fn put_cell(text: &mut Text, cell: &Cell) -> Result<(), NoMemory> {
    match cell {
        Cell::Int(n) => put_scalar(text, Val::Int(*n)),
        Cell::Bool(b) => put_scalar(text, Val::Bool(*b)),
        Cell::Char(c) => put_scalar(text, Val::Char(*c)),
        Cell::Null => put_scalar(text, Val::Null),
        Cell::Error(cause) => put_scalar(text, Val::Err(*cause)),
        Cell::Name(name) => text.extend(name.get().as_slice()),
        _ => text.extend(b"none"),
    }
}

fn put_literal(text: &mut Text, code: &Code, number: u32) -> Result<(), NoMemory> {
    text.extend(b" ")?;
    match code.literals.as_slice().get(number as usize) {
        Some(cell) => put_cell(text, cell),
        None => text.extend(b"none"),
    }
}

fn put_hop(text: &mut Text, hop: Hop) -> Result<(), NoMemory> {
    match hop {
        Hop::Elements => text.extend(b".elements"),
        Hop::Content => text.extend(b".content"),
        Hop::Counted(cell) => {
            put_numbered(text, b"[c", cell)?;
            text.extend(b"]")
        }
    }
}

fn put_hops(text: &mut Text, hops: &[Hop], route: Route) -> Result<(), NoMemory> {
    put_numbered(text, b"c", route.root)?;
    for place in 0..route.many {
        if let Some(hop) = hops.get(route.hops as usize + place as usize) {
            put_hop(text, *hop)?;
        }
    }
    Ok(())
}

fn put_route(text: &mut Text, code: &Code, number: u32) -> Result<(), NoMemory> {
    match code.routes.as_slice().get(number as usize) {
        Some(route) => put_hops(text, code.hops.as_slice(), *route),
        None => text.extend(b"none"),
    }
}

/// An operand: a literal, or a cell (`c3`) or a part of one (`c3.elements[c4]`), which is looked at,
/// copied or taken.
pub fn put_operand(text: &mut Text, code: &Code, from: Operand) -> Result<(), NoMemory> {
    match from {
        Operand::Literal(number) => put_literal(text, code, number),
        Operand::Looks(cell) => put_numbered(text, b" c", cell),
        Operand::Copies(cell) => put_numbered(text, b" copy c", cell),
        Operand::Takes(cell) => put_numbered(text, b" take c", cell),
        Operand::LooksAt(route) => {
            text.extend(b" ")?;
            put_route(text, code, route)
        }
        Operand::CopiesOf(route) => {
            text.extend(b" copy ")?;
            put_route(text, code, route)
        }
    }
}

/// So many operands from one on.
pub fn put_operands(text: &mut Text, code: &Code, first: u32, many: u32) -> Result<(), NoMemory> {
    for place in 0..many {
        let at = first as usize + place as usize;
        if let Some(from) = code.operands.as_slice().get(at) {
            put_operand(text, code, *from)?;
        }
    }
    Ok(())
}

/// So many places from one on, as those to which a step goes.
pub fn put_targets(text: &mut Text, code: &Code, first: u32, many: u32) -> Result<(), NoMemory> {
    for place in 0..many {
        let at = first as usize + place as usize;
        if let Some(target) = code.targets.as_slice().get(at) {
            put_numbered(text, b" ", *target)?;
        }
    }
    Ok(())
}

fn put_mask(text: &mut Text, mask: Option<u32>) -> Result<(), NoMemory> {
    match mask {
        Some(column) => put_numbered(text, b" where ", column),
        None => Ok(()),
    }
}

fn put_collect(text: &mut Text, collect: &Collect) -> Result<(), NoMemory> {
    match collect {
        Collect::Sifts {
            column,
            mask,
            copies,
        } => {
            text.extend(if *copies { b", copy all " } else { b", all " })?;
            put_numbered(text, b"", *column)?;
            put_mask(text, *mask)
        }
        Collect::Final { column } => put_numbered(text, b", last ", *column),
    }
}

/// So many collections from one on, each of a column of values.
pub fn put_collects(text: &mut Text, code: &Code, first: u32, many: u32) -> Result<(), NoMemory> {
    for place in 0..many {
        let at = first as usize + place as usize;
        if let Some(collect) = code.collects.as_slice().get(at) {
            put_collect(text, collect)?;
        }
    }
    Ok(())
}
