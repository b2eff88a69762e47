//! The answers of a unit, counted.
ghost use Rattle.std.specs.Prelude.{◌≡◌};
ghost use Rattle.storage_flags.specs.Flags.{AreRows, consumers_of};
ghost use Rattle.mark_check.specs.Graphs.{lent, unit_graphs};

use crate::graphs::lent_inside;
use crate::shapes::shaped;
use flow_value::NoMemory;
use if1_graph::Graph;
use if1_sound::Sound;
use mark_check::all_graphs;
use may_take::owned_edges;
use node_works::{UnitTables, tables_of};
use std::alloc::Global;
use storage_flags::{Flags, aggregate_edges, consumed_edges};

/// How many answers of a unit are other than the plain ones.
#[derive(Drop)]
pub struct Told {
    /// Nodes with a shape.
    pub shapes: usize,
    /// Edges that carry aggregates.
    pub aggregates: usize,
    /// Edges that consume.
    pub consumed: usize,
    /// Edges from owned ports.
    pub owned: usize,
    /// Edges that carry what a port of the graph around lends.
    pub lent: usize,
}

fn flagged(flags: &[bool]) -> usize {
    let mut count: usize = 0;
    for flag in flags {
        if *flag {
            count = count.saturating_add(1);
        }
    }
    count
}

fn flagged_in(rows: &[Flags]) -> usize {
    let mut count: usize = 0;
    for row in rows {
        count = count.saturating_add(flagged(row.as_slice()));
    }
    count
}

fn all_shaped(
    alloc: Global,
    unit: &Sound,
    tables: &UnitTables,
    graphs: &[&Graph],
) -> Result<usize, NoMemory>
    requires { lent graphs.now ≡ unit_graphs unit.now }
{
    let mut count: usize = 0;
    for graph in graphs {
        count = count.saturating_add(shaped(alloc, unit, tables, graph)?);
    }
    Ok(count)
}

fn all_lent(unit: &Sound, consumed: &[Flags], graphs: &[&Graph]) -> usize
    requires rows { AreRows unit.now (consumers_of unit.now) consumed.now }
    requires graphs { lent graphs.now ≡ unit_graphs unit.now }
{
    let mut count: usize = 0;
    for graph in graphs {
        count = count.saturating_add(lent_inside(unit, consumed, graph));
    }
    count
}

/// All answers of a unit, counted.
pub fn told_of(alloc: Global, unit: &Sound) -> Result<Told, NoMemory> {
    let whole = unit.unit();
    let graphs = all_graphs(alloc, whole)?;
    let tables = tables_of(alloc, unit)?;
    let shapes = all_shaped(alloc, unit, &tables, graphs.as_slice())?;
    let aggregates = aggregate_edges(alloc, unit)?;
    let consumed = consumed_edges(alloc, unit)?;
    let owned = owned_edges(alloc, whole)?;
    Ok(Told {
        shapes,
        aggregates: flagged_in(aggregates.as_slice()),
        consumed: flagged_in(consumed.as_slice()),
        owned: flagged_in(owned.as_slice()),
        lent: all_lent(unit, consumed.as_slice(), graphs.as_slice()),
    })
}
