//! Flags of the edges of a unit, by the numbers of the graphs.
ghost use Rattle.std.specs.Prelude.{◌≡◌, ◌&&◌, suc, length, IfOk};
ghost use Rattle.if1_graph.specs.Units.{places};
ghost use Rattle.graph_meaning.specs.StorageUnits.{storage_of};
ghost use Rattle.storage_flags.specs.Flags.{aggregates_of, consumers_of, AreRows, AreFlags};

use crate::rows::{Flags, aggregate_rows};
use flow_value::{NoMemory, Seq};
use may_take::consuming_edges;
use std::alloc::Global;
use unit_orders::{Sound, all_graphs};

/// Of each graph of a unit, by its number, and each of its edges, in order, whether it carries an
/// aggregate. Row 0 is empty, since numbers begin with 1. Takes for each edge the time of two searches
/// among the types.
pub fn aggregate_edges(alloc: Global, unit: &Sound) -> Result<Vec<Flags>, NoMemory>
    ensures fit { IfOk result (λ r. length r.items ≡ suc (length (places unit.now))) }
    ensures rows { IfOk result (λ r. AreRows unit.now (aggregates_of unit.now.types) r.items) }
    ensures flags { IfOk result (λ r. AreFlags unit.now (storage_of unit.now).is_aggregate r.items) }
{
    let whole = unit.unit();
    let graphs = all_graphs(alloc, whole)?;
    let rows = aggregate_rows(alloc, whole.types.as_slice(), graphs.as_slice())?;
    Ok(rows)
}

/// Of each graph of a unit, by its number, and each of its edges, in order, whether it carries an
/// aggregate to where that is consumed. Row 0 is empty, since numbers begin with 1. Near linear in the
/// unit.
pub fn consumed_edges(alloc: Global, unit: &Sound) -> Result<Vec<Flags>, NoMemory>
    ensures rows { IfOk result (λ r. AreRows unit.now (consumers_of unit.now) r.items) }
    ensures flags { IfOk
        result
        (λ r. AreFlags unit.now (λ k l port. (storage_of unit.now).is_aggregate k l port && (storage_of unit.now).is_given k l port) r.items) }
{
    let whole = unit.unit();
    let known = consuming_edges(alloc, whole)?;
    let mut known = known;
    let mut rows = Vec::new(alloc);
    rows.push(Seq::new(alloc))?;
    rows.append(&mut known)?;
    Ok(rows)
}
