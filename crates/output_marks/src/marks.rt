//! Marks of the outputs of a node.
ghost use Rattle.std.specs.Prelude.{◌≡◌, ◌++◌, ◌==◌, map, find, replicate, AllPairs, IfOk, OnOk};
ghost use Rattle.std.specs.List.Sorted.{IsStrictlyIncreasing};
ghost use Rattle.std.specs.Option.{option_copied};
ghost use Rattle.if1_graph.specs.declared.graph.Graph.TheViews.{out-Graph};
ghost use Rattle.if1_graph.specs.Normal.{Precedes};
ghost use Rattle.if1_graph.specs.Ports.{count_from};
ghost use Rattle.if1_graph.specs.Units.{edge_into};
ghost use Rattle.graph_meaning.specs.StorageUnits.{carries_elements};
ghost use Rattle.output_marks.specs.Outputs.{AreAggregates, has_output};
ghost use Rattle.output_marks.specs.Marks.{AreTold, marks_of};

use crate::outputs::OutputSet;
use flow_value::{NoMemory, Seq};
use if1_graph::{Edge, Graph, Simple, Unit1};
use if1_ports::edges_into;
use storage_flags::has_aggregate_elements;

/// Marks of outputs.
type Marks = Seq<bool>;

fn into_first(edges: &[Edge]) -> Option<&Edge>
    ensures { option_copied result ≡ find (λ e. e.port == 1) edges.now }
{
    for edge in edges {
        if edge.port == 1 {
            return Some(edge);
        }
    }
    None
}

// whether an array or stream of aggregates comes into port 1
fn has_elements(unit: &Unit1, graph: &Graph, label: u32) -> bool
    requires types { IsStrictlyIncreasing (map (λ e. e.label) unit.now.types) }
    requires order { AllPairs Precedes (out-Graph graph.now).edges }
    ensures { result ≡ carries_elements unit.now (edge_into graph.now label 1) }
{
    match into_first(edges_into(graph.edges.as_slice(), label)) {
        Some(edge) => has_aggregate_elements(unit.types.as_slice(), edge.ty),
        None => false,
    }
}

fn add_alike(mark: bool, width: u32, marks: &mut Marks) -> Result<(), NoMemory>
    ensures { OnOk result (marks.new ≡ marks.old ++ replicate width mark) }
{
    for _ in 0..width {
        marks.add(mark)?;
    }
    Ok(())
}

fn add_each(outputs: &OutputSet, label: u32, width: u32, marks: &mut Marks) -> Result<(), NoMemory>
    ensures { OnOk result (marks.new ≡ marks.old ++ map (has_output outputs.now label) (count_from 1 width)) }
{
    for place in 0..width {
        marks.add(outputs.has(label, place + 1))?;
    }
    Ok(())
}

fn add_row(
    unit: &Unit1,
    graph: &Graph,
    outputs: &OutputSet,
    label: u32,
    row: Simple,
    width: u32,
    marks: &mut Marks,
) -> Result<(), NoMemory>
    requires types { IsStrictlyIncreasing (map (λ e. e.label) unit.now.types) }
    requires order { AllPairs Precedes (out-Graph graph.now).edges }
    requires outputs { AreAggregates unit.now.types graph.now outputs.now }
    ensures { OnOk result (marks.new ≡ marks.old ++ marks_of unit.now graph.now label width row) }
{
    match row {
        Simple::AElement | Simple::FirstValue => {
            add_alike(has_elements(unit, graph, label), width, marks)
        }
        Simple::RElements => add_each(outputs, label, width, marks),
        _ => Ok(()),
    }
}

/// Puts the marks of the outputs of a node behind the others, where it hands out what an aggregate has,
/// and gives the number of the first; a node that does not has none. More than 32 bits count are want of
/// memory, after which some may have been put.
pub fn add_marks(
    unit: &Unit1,
    graph: &Graph,
    outputs: &OutputSet,
    label: u32,
    row: Simple,
    width: u32,
    marks: &mut Marks,
) -> Result<u32, NoMemory>
    requires types { IsStrictlyIncreasing (map (λ e. e.label) unit.now.types) }
    requires order { AllPairs Precedes (out-Graph graph.now).edges }
    requires outputs { AreAggregates unit.now.types graph.now outputs.now }
    ensures put { OnOk result (marks.new ≡ marks.old ++ marks_of unit.now graph.now label width row) }
    ensures told { IfOk result (AreTold unit.now graph.now label width row marks.new) }
{
    match u32::try_from(marks.len()) {
        Ok(first) => {
            add_row(unit, graph, outputs, label, row, width, marks)?;
            Ok(first)
        }
        Err(_) => Err(NoMemory),
    }
}
