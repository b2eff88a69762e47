//! A node that is fired in each way.
use crate::line::Line;
use flow_value::{NoMemory, Operand, Outputs, Val, copy, same_all};
use if1_graph::Simple;
use node_ops::fire;
use place_ops::{extend_taken, fire_taken};
use std::alloc::Global;

/// The most ports of a line.
const MOST_PORTS: usize = 1000;

/// Whether the node of a line gives the outputs of the line, fired in each way.
pub fn verdict(alloc: Global, line: &Line) -> Result<&'static str, NoMemory> {
    if line.op == Simple::Call {
        return Ok("no node");
    }
    let wanted = line.outputs.as_slice();
    if !same_all(fire_lent(alloc, line)?.as_slice(), wanted) {
        return Ok("lent operands differ");
    }
    if !same_all(fire_owned(alloc, line)?.as_slice(), wanted) {
        return Ok("owned operands differ");
    }
    if !is_same_taken(alloc, line)? {
        return Ok("in place it differs");
    }
    Ok("ok")
}

fn fire_lent(alloc: Global, line: &Line) -> Result<Outputs, NoMemory> {
    let mut ins = Vec::new(alloc);
    for one in line.operands.iter() {
        match one {
            Some(value) => ins.push(Operand::Lent(value))?,
            None => ins.push(Operand::Absent)?,
        }
    }
    if ins.len() > MOST_PORTS {
        return Ok(Outputs::new(alloc));
    }
    fire(alloc, line.op, line.shape, ins.as_mut_slice())
}

fn fire_owned(alloc: Global, line: &Line) -> Result<Outputs, NoMemory> {
    let mut ins = owned_from(alloc, line.operands.as_slice())?;
    if ins.len() > MOST_PORTS {
        return Ok(Outputs::new(alloc));
    }
    fire(alloc, line.op, line.shape, ins.as_mut_slice())
}

/// The operands, as copies that are owned.
fn owned_from(alloc: Global, values: &[Option<Val>]) -> Result<Vec<Operand<'static>>, NoMemory> {
    let mut ins = Vec::new(alloc);
    for one in values {
        match one {
            Some(value) => ins.push(Operand::Owned(copy(alloc, value)?))?,
            None => ins.push(Operand::Absent)?,
        }
    }
    Ok(ins)
}

/// Whether the node, fired in place, gives the output of the line, or is none that is fired so.
fn is_same_taken(alloc: Global, line: &Line) -> Result<bool, NoMemory> {
    let Some((Some(first), rest)) = line.operands.split_first() else {
        return Ok(true);
    };
    let mut owned = copy(alloc, first)?;
    if !take(alloc, line.op, &mut owned, rest)? && !extend(alloc, line.op, &mut owned, rest)? {
        return Ok(true);
    }
    Ok(same_all(line.outputs.as_slice(), &[owned]))
}

/// Fires a node in place, if it is one that needs no memory.
fn take(
    alloc: Global,
    op: Simple,
    owned: &mut Val,
    rest: &[Option<Val>],
) -> Result<bool, NoMemory> {
    let mut values = Vec::new(alloc);
    for one in rest {
        match one {
            Some(value) => values.push(Some(copy(alloc, value)?))?,
            None => values.push(None)?,
        }
    }
    let ins = values.as_mut_slice();
    match op {
        Simple::AReplace => fire_taken(Simple::AReplace, owned, ins),
        Simple::RReplace => fire_taken(Simple::RReplace, owned, ins),
        Simple::ARemH => fire_taken(Simple::ARemH, owned, ins),
        Simple::ARemL => fire_taken(Simple::ARemL, owned, ins),
        Simple::ASetL => fire_taken(Simple::ASetL, owned, ins),
        Simple::AAdjust => fire_taken(Simple::AAdjust, owned, ins),
        Simple::RestValues => fire_taken(Simple::RestValues, owned, ins),
        _ => return Ok(false),
    }
    Ok(true)
}

/// Fires a node in place, if it is one that adds elements.
fn extend(
    alloc: Global,
    op: Simple,
    owned: &mut Val,
    rest: &[Option<Val>],
) -> Result<bool, NoMemory> {
    let mut operands = owned_from(alloc, rest)?;
    let ins = operands.as_mut_slice();
    match op {
        Simple::AAddH => extend_taken(alloc, Simple::AAddH, owned, ins)?,
        Simple::AAddL => extend_taken(alloc, Simple::AAddL, owned, ins)?,
        Simple::ACatenate => extend_taken(alloc, Simple::ACatenate, owned, ins)?,
        _ => return Ok(false),
    }
    Ok(true)
}
