//! Whether the marks of a unit are sound.
ghost use Rattle.std.specs.Prelude.{◌≡◌, All, IfOk, IfErr, IsTrue, OnOk, map};
ghost use Rattle.if1_graph.specs.Normal.{IsNormal};
ghost use Rattle.if1_graph.specs.Ready.{IsReady};
ghost use Rattle.if1_graph.specs.Units.{places};
ghost use Rattle.if1_marks.specs.Sound.{IsSound};
ghost use Rattle.may_take.specs.Looked.{flags_at};
ghost use Rattle.mark_check.specs.Graphs.{AreUntaken, lent, unit_graphs};
ghost use Rattle.mark_check.specs.Marks.{HasWrongEntry, HasWrongTaker, IsListFaultAs, IsTakerFaultAs, IsFirstFault, IsBad};

use crate::graphs::all_graphs;
use crate::lists::first_wrong_entry;
use crate::takers::{first_bad_taker, takes_nothing};
use flow_value::NoMemory;
use if1_graph::{Graph, If1Fault, Unit1};
use if1_sound::Sound;
use if1_valid::Ready;
use may_take::{Flags, candidates};
use std::alloc::Global;
use thiserror::Error;

/// Why marks are not known to be sound.
#[derive(Clone, Copy, Debug, PartialEq, Eq, Error)]
pub enum MarkFault {
    /// A taking edge into this port of the node may not take, because of the reader; or, where the port is
    /// 0, the reader is a label on the ordering list of the node that is none of the graph or closes a
    /// cycle. The boundary of the graph is node 0.
    #[error("port {port} of node {node} of graph {graph} may not take from {reader}")]
    BadMark {
        graph: u32,
        node: u32,
        port: u32,
        reader: u32,
    },
    /// Want of memory.
    #[error("no memory")]
    NoMemory,
}

impl From<NoMemory> for MarkFault {
    ghost use Rattle.std.specs.Prelude.{◌≡◌};
    ghost use Rattle.mark_check.specs.declared.marks.MarkFault.TheVariants.{NoMemory};

    ghost from_gives = { λ _ e. e ≡ NoMemory };

    fn from(_e: NoMemory) -> MarkFault {
        MarkFault::NoMemory
    }
}

impl From<MarkFault> for If1Fault {
    ghost use Rattle.std.specs.Prelude.{◌≡◌};
    ghost use Rattle.mark_check.specs.Marks.{as_fault};

    ghost from_gives = { λ f e. e ≡ as_fault f };

    fn from(fault: MarkFault) -> If1Fault {
        match fault {
            MarkFault::BadMark {
                graph,
                node,
                port,
                reader,
            } => If1Fault::Marks {
                graph,
                node,
                port,
                reader,
            },
            MarkFault::NoMemory => If1Fault::NoMemory,
        }
    }
}

// that no label on an ordering list is wrong
fn check_lists(alloc: Global, unit: &Unit1, graphs: &[&Graph]) -> Result<(), MarkFault>
    requires ready { IsReady unit.now }
    requires normal { IsNormal unit.now }
    requires graphs { lent graphs.now ≡ unit_graphs unit.now }
    ensures right { OnOk result (All (λ p. ¬ HasWrongEntry p) (places unit.now)) }
    ensures wrong { IfErr result (IsListFaultAs unit.now) }
{
    let _ = unit;
    for graph in graphs {
        let found = first_wrong_entry(alloc, graph)?;
        if let Some(at) = found {
            return Err(MarkFault::BadMark {
                graph: graph.number,
                node: at.0,
                port: 0,
                reader: at.1,
            });
        }
    }
    Ok(())
}

// that each taking edge may take
fn check_takers(
    alloc: Global,
    unit: &Unit1,
    graphs: &[&Graph],
    flags: &[Flags],
) -> Result<(), MarkFault>
    requires ready { IsReady unit.now }
    requires normal { IsNormal unit.now }
    requires lists { All (λ p. ¬ HasWrongEntry p) (places unit.now) }
    requires graphs { lent graphs.now ≡ unit_graphs unit.now }
    requires flags { flags.now ≡ map (flags_at unit.now) (places unit.now) }
    ensures right { OnOk result (All (λ p. ¬ HasWrongTaker unit.now p) (places unit.now)) }
    ensures wrong { IfErr result (IsTakerFaultAs unit.now) }
{
    let _ = unit;
    for (index, graph) in graphs.iter().enumerate() {
        let found = first_bad_taker(alloc, graph, flags[index].as_slice())?;
        if let Some(bad) = found {
            return Err(MarkFault::BadMark {
                graph: graph.number,
                node: bad.node,
                port: bad.port,
                reader: bad.reader,
            });
        }
    }
    Ok(())
}

// whether no edge of these graphs takes
fn take_nothing(graphs: &[&Graph]) -> bool
    ensures { IsTrue result → AreUntaken graphs.now }
{
    for graph in graphs {
        if !takes_nothing(graph.edges.as_slice()) {
            return false;
        }
    }
    true
}

// that the marks are sound
fn check(alloc: Global, unit: &Unit1) -> Result<(), MarkFault>
    requires ready { IsReady unit.now }
    requires normal { IsNormal unit.now }
    ensures sound { OnOk result (IsSound unit.now) }
    ensures fault { IfErr result (IsFirstFault unit.now) }
{
    let graphs = all_graphs(alloc, unit)?;
    check_lists(alloc, unit, graphs.as_slice())?;
    if take_nothing(graphs.as_slice()) {
        return Ok(());
    }
    let flags = candidates(alloc, unit)?;
    check_takers(alloc, unit, graphs.as_slice(), flags.as_slice())?;
    Ok(())
}

/// The unit, if its marks are sound. Else the first fault: labels on ordering lists are looked at first, by
/// graph, node and place in the list, then edges that take, by graph, node and port, the boundary last; of
/// several nodes that are to blame the one of the least label is named.
pub fn check_marks(alloc: Global, unit: Ready) -> Result<Sound, MarkFault>
    ensures sound { IfOk result (λ s. (s ≡ unit) × IsSound unit) }
    ensures fault { IfErr result (IsFirstFault unit) }
    ensures unsound { IfErr result (λ f. IsBad f → ¬ IsSound unit) }
{
    check(alloc, unit.unit())?;
    Ok(Sound::of(unit))
}
