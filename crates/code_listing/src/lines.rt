//! The listing of a unit's code.
use crate::steps::put_step;
use flow_value::{NoMemory, Text};
use if1_graph::{Graph, Unit1};
use plan_data::number_at;
use std::alloc::Global;
use step_code::Code;
use unit_code::UnitCode;
use unit_drawing::put_numbered;

/// Where the code of a function begins, and how many cells its block has.
fn put_entry(text: &mut Text, graph: &Graph, code: &UnitCode) -> Result<(), NoMemory> {
    let entry = number_at(code.entries.as_slice(), graph.number);
    let room = number_at(code.rooms.as_slice(), graph.number);
    text.extend(graph.name.as_slice())?;
    put_numbered(text, b": step ", entry)?;
    put_numbered(text, b", cells ", room)?;
    text.extend(b"\n")
}

fn put_entries(text: &mut Text, unit: &Unit1, code: &UnitCode) -> Result<(), NoMemory> {
    for graph in unit.graphs.as_slice() {
        put_entry(text, graph, code)?;
    }
    Ok(())
}

fn put_steps(text: &mut Text, code: &Code) -> Result<(), NoMemory> {
    let mut place: u32 = 0;
    for step in code.steps.as_slice() {
        put_numbered(text, b"", place)?;
        put_step(text, code, step)?;
        text.extend(b"\n")?;
        place = place.wrapping_add(1);
    }
    Ok(())
}

/// The code of a unit as a text: a line for each function, with the step at which it begins and the
/// number of cells of its block; then a line for each step, with what it reads (`c3` is a cell, `copy`
/// and `take` tell how it is read where it is not looked at alone), `>` before the cells that it writes,
/// and `to` before the steps at which it goes on.
pub fn listing(alloc: Global, unit: &Unit1, code: &UnitCode) -> Result<Text, NoMemory> {
    let mut text = Text::new(alloc);
    put_entries(&mut text, unit, code)?;
    put_steps(&mut text, &code.code)?;
    Ok(text)
}
