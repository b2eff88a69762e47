//! How many outputs nodes have.
ghost use Rattle.std.specs.Prelude.{◌≡◌, All, AllPairs, None, map, IfOk};
ghost use Rattle.if1_graph.specs.declared.graph.Graph.TheViews.{out-Graph};
ghost use Rattle.if1_graph.specs.declared.graph.Node.{Node, out-Node};
ghost use Rattle.if1_graph.specs.declared.graph.Unit1.{Unit1};
ghost use Rattle.if1_graph.specs.Normal.{Precedes};
ghost use Rattle.if1_graph.specs.Ready.{IsReady};
ghost use Rattle.if1_graph.specs.Units.{label_of};
ghost use Rattle.graph_meaning.specs.Networks.{kind_as, kind_of, simple_kind};
ghost use Rattle.unit_plan.specs.Plans.{outputs_in};
ghost use Rattle.node_works.specs.Tables.{AreTablesOf, IsGraphOf, results_by};

use crate::counts::or_none;
use crate::functions::Callee;
use crate::into::{callee_at, carried_at};
use crate::results::compound_outputs;
use crate::tables::UnitTables;
use flow_value::{NoMemory, Numbers, Seq, Shape};
use if1_graph::{Graph, Node, Simple, compound_of, simple_of};
use if1_ports::fields_in;
use if1_sound::Sound;
use plan_builder::plain_width;
use std::alloc::Global;

fn results_in(callee: Option<Callee>) -> u32
    ensures { result ≡ results_by callee }
{
    match callee {
        Some(callee) => callee.results,
        None => 0,
    }
}

fn row_width(tables: &UnitTables, graph: &Graph, label: u32, row: Simple) -> u32
    requires { AllPairs Precedes (out-Graph graph.now).edges }
    ensures { (u : Unit1) → AreTablesOf u tables.now → IsReady u → result ≡ outputs_in u (simple_kind u graph.now label row) }
{
    match row {
        Simple::Call => results_in(callee_at(tables, graph, label)),
        Simple::RElements => or_none(fields_in(carried_at(tables, graph, label))),
        _ => plain_width(row, Shape::Plain),
    }
}

fn simple_width(tables: &UnitTables, graph: &Graph, label: u32, row: Option<Simple>) -> u32
    requires { AllPairs Precedes (out-Graph graph.now).edges }
    ensures { (u : Unit1) (n : Node) → AreTablesOf u tables.now → IsReady u → label_of n ≡ label → result ≡ outputs_in u (kind_as u graph.now n None row) }
{
    match row {
        Some(row) => row_width(tables, graph, label, row),
        None => 1,
    }
}

fn width_of(tables: &UnitTables, graph: &Graph, node: &Node) -> u32
    requires order { AllPairs Precedes (out-Graph graph.now).edges }
    requires inside { All (λ g. AllPairs Precedes (out-Graph g).edges) (out-Node node.now).subs }
    ensures { (u : Unit1) → AreTablesOf u tables.now → IsReady u → result ≡ outputs_in u (kind_of u graph.now node.now) }
{
    match compound_of(node.op) {
        Some(compound) => compound_outputs(compound, node.subs.as_slice()),
        None => simple_width(tables, graph, node.label, simple_of(node.op)),
    }
}

fn widths_in(alloc: Global, tables: &UnitTables, graph: &Graph) -> Result<Numbers, NoMemory>
    requires order { AllPairs Precedes (out-Graph graph.now).edges }
    requires inside { All (λ n. All (λ g. AllPairs Precedes (out-Graph g).edges) (out-Node n).subs) (out-Graph graph.now).nodes }
    ensures { IfOk result (λ ws. (u : Unit1) → AreTablesOf u tables.now → IsReady u → ws ≡ map (λ n. outputs_in u (kind_of u graph.now n)) (out-Graph graph.now).nodes) }
{
    let mut widths = Seq::with_room(alloc, graph.nodes.len())?;
    for node in graph.nodes.as_slice() {
        widths.add(width_of(tables, graph, node))?;
    }
    Ok(widths)
}

/// How many outputs each node of a graph has, in the order of the nodes. Takes for each node the time of
/// some searches, and looks at the edges into it and at the results of the graphs inside it.
pub fn widths_of(
    alloc: Global,
    unit: &Sound,
    tables: &UnitTables,
    graph: &Graph,
) -> Result<Numbers, NoMemory>
    requires tables { AreTablesOf unit.now tables.now }
    requires here { IsGraphOf unit.now graph.now }
    ensures { IfOk result (λ ws. ws ≡ map (λ n. outputs_in unit.now (kind_of unit.now graph.now n)) (out-Graph graph.now).nodes) }
{
    unit.unit();
    let widths = widths_in(alloc, tables, graph)?;
    Ok(widths)
}
