//! What is known of a unit and of its graphs, for the data of its nodes.
ghost use Rattle.std.specs.Prelude.{◌≡◌, map, Contains, IfOk};
ghost use Rattle.if1_graph.specs.Units.{Place, places};
ghost use Rattle.output_marks.specs.FiringOrderOrders.{IsFiringOrder};
ghost use Rattle.plan_builder.specs.Laws.{AreOfGraph};
ghost use Rattle.plan_builder.specs.Outlets.{AreOutlets};
ghost use Rattle.graph_inputs.specs.Inputs.{inputs_of};
ghost use Rattle.plan_nodes.specs.Tables.{AreTablesOf, IsGraphOf};
ghost use Rattle.unit_data.specs.Facts.{AreFacts, AreFactsAt};

use flow_value::{NoMemory, Seq};
use graph_inputs::{Inputs, unit_inputs};
use if1_graph::Graph;
use if1_order::Places;
use if1_ports::labels_of;
use if1_sound::Sound;
use may_take::PortSet;
use output_marks::{
    Flags, OutputSet, aggregate_edges, aggregate_outputs, consumed_edges, joined_nodes,
};
use plan_builder::{Outlets, outlets_of};
use plan_nodes::{UnitTables, output_types, tables_of, widths_of};
use std::alloc::Global;

/// What is known of a unit.
#[derive(Drop)]
pub struct Facts {
    /// Its types and functions.
    pub tables: UnitTables,
    /// Of each edge, by the number of its graph, whether it carries an aggregate.
    pub aggregates: Vec<Flags>,
    /// Of each edge whether it carries an aggregate to where that is consumed.
    pub consumed: Vec<Flags>,
    /// The inputs of each graph, in the order of their numbers from 1 on.
    pub inputs: Seq<Inputs>,
}

/// What is known of a graph.
#[derive(Drop)]
pub struct GraphFacts {
    /// Where the outputs of its nodes stand.
    pub outlets: Outlets,
    /// The type of what leaves the first output of each node.
    pub types: Seq<Option<u32>>,
    /// The nodes that give what an ACatenate takes.
    pub joined: PortSet,
    /// The outputs that are aggregates.
    pub outputs: OutputSet,
}

/// The inputs of each graph of a unit, by what is known of its types.
fn inputs_of(alloc: Global, unit: &Sound, tables: &UnitTables) -> Result<Seq<Inputs>, NoMemory>
    requires { AreTablesOf unit.now tables.now }
    ensures { IfOk result (λ xs. xs ≡ map (inputs_of unit.now) (places unit.now)) }
{
    let inputs = unit_inputs(alloc, unit, &tables.types)?;
    Ok(inputs)
}

/// What is known of a unit. Near linear in the unit.
pub fn facts_of(alloc: Global, unit: &Sound) -> Result<Facts, NoMemory>
    ensures { IfOk result (AreFacts unit.now) }
{
    let tables = tables_of(alloc, unit)?;
    let aggregates = aggregate_edges(alloc, unit)?;
    let consumed = consumed_edges(alloc, unit)?;
    let inputs = inputs_of(alloc, unit, &tables)?;
    Ok(Facts {
        tables,
        aggregates,
        consumed,
        inputs,
    })
}

/// Where the outputs of a graph's nodes stand, which fire in this order.
fn outlets_in(
    alloc: Global,
    unit: &Sound,
    facts: &Facts,
    graph: &Graph,
    order: Places,
) -> Result<Outlets, NoMemory>
    requires facts { AreFacts unit.now facts.now }
    requires here { IsGraphOf unit.now graph.now }
    requires order { IsFiringOrder graph.now order }
    ensures are { IfOk result AreOutlets }
    ensures own { IfOk result (λ x. (p : Place) → Contains (places unit.now) p → p.graph ≡ graph.now → AreOfGraph unit.now p x) }
    ensures order { IfOk result (λ x. x.order ≡ order) }
{
    let _whole = unit.unit();
    let labels = labels_of(alloc, graph.nodes.as_slice())?;
    let widths = widths_of(alloc, unit, &facts.tables, graph)?;
    outlets_of(alloc, labels, widths, order)
}

/// What is known of a graph, whose nodes fire in this order. Near linear in the graph.
pub fn graph_facts(
    alloc: Global,
    unit: &Sound,
    facts: &Facts,
    graph: &Graph,
    order: Places,
) -> Result<GraphFacts, NoMemory>
    requires facts { AreFacts unit.now facts.now }
    requires here { IsGraphOf unit.now graph.now }
    requires order { IsFiringOrder graph.now order }
    ensures are { IfOk result (AreFactsAt unit.now graph.now) }
    ensures order { IfOk result (λ x. x.outlets.order ≡ order) }
{
    let whole = unit.unit();
    let outlets = outlets_in(alloc, unit, facts, graph, order)?;
    let types = output_types(alloc, unit, graph)?;
    let joined = joined_nodes(alloc, graph)?;
    let outputs = aggregate_outputs(alloc, whole.types.as_slice(), graph)?;
    Ok(GraphFacts {
        outlets,
        types,
        joined,
        outputs,
    })
}
