//! The graphs of the data of a unit.
ghost use Rattle.std.specs.Prelude.{◌≡◌, ◌<◌, ◌≤◌, ℕ, suc, [], List, Some, map, length, slice_get, slice_index_or, Contains, IfOk, OnOk};
ghost use Rattle.if1_graph.specs.Units.{Place, number_of, places};
ghost use Rattle.output_marks.specs.FiringOrderOrders.{IsFiringOrder};
ghost use Rattle.plan_nodes.specs.Plans.{Tables, plain_of};
ghost use Rattle.output_marks.specs.Orders.{AreFiringOrders};
ghost use Rattle.output_marks.specs.Graphs.{lent, unit_graphs};
ghost use Rattle.plan_data.specs.declared.plan.PlanData.{PlanData};
ghost use Rattle.plan_nodes.specs.Tables.{IsGraphOf};
ghost use Rattle.plan_nodes.specs.Ports.{port_by};
ghost use Rattle.unit_data.specs.Facts.{AreFacts, plain_found};
ghost use Rattle.unit_data.specs.Graphs.{AreGraphsAt, GoesOn, IsBegun, IsGraphAt};

use crate::facts::{Facts, graph_facts};
use crate::nodes::nodes_of;
use flow_value::{NoMemory, Seq};
use graph_inputs::Inputs;
use if1_graph::Graph;
use if1_order::Places;
use if1_sound::Sound;
use plan_builder::port_of;
use plan_data::{PlanGraph, Port};
use plan_nodes::{Filled, ports_of};
use std::alloc::Global;
use step_code::Cell;

/// Graphs that were made, with their literals and marks.
#[derive(Drop)]
pub struct MadeGraphs {
    /// The graphs.
    pub graphs: Seq<PlanGraph>,
    /// The literals; the first one is what an unfilled port has.
    pub literals: Seq<Cell>,
    /// The marks.
    pub marks: Seq<bool>,
}

/// The results of a graph, by what fills them.
fn results_of(alloc: Global, ports: &[Filled]) -> Result<Seq<Port>, NoMemory>
    ensures { IfOk result (λ xs. xs ≡ map port_by ports.now) }
{
    let mut results = Seq::with_room(alloc, ports.len())?;
    for port in ports {
        results.add(port_of(port.feed, port.takes, port.consumed))?;
    }
    Ok(results)
}

/// A graph, whose nodes fire in this order, and of whose inputs so many are no multiples if it is a
/// returns; its literals and marks are put behind the others.
fn graph_of(
    alloc: Global,
    unit: &Sound,
    facts: &Facts,
    graph: &Graph,
    order: Places,
    plain: Option<u32>,
    literals: &mut Seq<Cell>,
    marks: &mut Seq<bool>,
) -> Result<PlanGraph, NoMemory>
    requires facts { AreFacts unit.now facts.now }
    requires here { IsGraphOf unit.now graph.now }
    requires order { IsFiringOrder graph.now order }
    ensures kept { OnOk result ((D : PlanData) → GoesOn literals.new marks.new D → GoesOn literals.old marks.old D) }
    ensures made { IfOk result (λ x. (D : PlanData) (os : (graph : ℕ) → List ℕ) (t : Tables) (p : Place) → GoesOn literals.new marks.new D → IsBegun D → Contains (places unit.now) p → p.graph ≡ graph.now → plain_of unit.now (number_of p) ≡ plain → order ≡ os (number_of p) → IsGraphAt D unit.now os t (number_of p) (Some x)) }
{
    let _whole = unit.unit();
    let known = graph_facts(alloc, unit, facts, graph, order)?;
    let made = nodes_of(alloc, unit, facts, graph, &known, plain, literals, marks)?;
    let ports = ports_of(
        alloc,
        unit,
        graph,
        facts.aggregates.as_slice(),
        facts.consumed.as_slice(),
        &known.outlets,
        0,
        literals,
    )?;
    let listed = ports.listed(alloc)?;
    let results = results_of(alloc, listed.as_slice())?;
    Ok(PlanGraph {
        nodes: made.nodes,
        results,
        collects: made.collects,
        refolded: graph.number,
    })
}

/// No graph has number 0.
fn no_graph(alloc: Global) -> PlanGraph
    ensures { result ≡ record { nodes = []; results = []; collects = []; refolded = 0 } }
{
    PlanGraph {
        nodes: Seq::new(alloc),
        results: Seq::new(alloc),
        collects: Seq::new(alloc),
        refolded: 0,
    }
}

/// How many inputs of the graph at a place are no multiples, if it is a returns.
fn plain_at(inputs: &[Inputs], place: usize) -> Option<u32>
    ensures { result ≡ plain_found (slice_get inputs.now place) }
{
    match inputs.get(place) {
        Some(own) => own.plain,
        None => None,
    }
}

/// What stands at a number, by the graphs of the unit in order.
fn graph_at(
    alloc: Global,
    unit: &Sound,
    facts: &Facts,
    graphs: &[&Graph],
    number: usize,
    order: Places,
    literals: &mut Seq<Cell>,
    marks: &mut Seq<bool>,
) -> Result<PlanGraph, NoMemory>
    requires facts { AreFacts unit.now facts.now }
    requires graphs { lent graphs.now ≡ unit_graphs unit.now }
    requires inside { number ≤ length graphs.now }
    requires order { (p : Place) → Contains (places unit.now) p → number_of p ≡ number → IsFiringOrder p.graph order }
    ensures kept { OnOk result ((D : PlanData) → GoesOn literals.new marks.new D → GoesOn literals.old marks.old D) }
    ensures made { IfOk result (λ x. (D : PlanData) (os : (graph : ℕ) → List ℕ) (t : Tables) → GoesOn literals.new marks.new D → IsBegun D → order ≡ os number → IsGraphAt D unit.now os t number (Some x)) }
{
    let _whole = unit.unit();
    if number == 0 {
        return Ok(no_graph(alloc));
    }
    let graph = graphs[number - 1];
    let plain = plain_at(facts.inputs.as_slice(), number - 1);
    let made = graph_of(alloc, unit, facts, graph, order, plain, literals, marks)?;
    Ok(made)
}

/// All graphs of a unit, by their numbers, whose nodes fire in these orders.
pub fn graphs_of(
    alloc: Global,
    unit: &Sound,
    facts: &Facts,
    graphs: &[&Graph],
    orders: Vec<Places>,
) -> Result<MadeGraphs, NoMemory>
    requires facts { AreFacts unit.now facts.now }
    requires graphs { lent graphs.now ≡ unit_graphs unit.now }
    requires fit { length orders.items ≡ suc (length (places unit.now)) }
    requires orders { AreFiringOrders unit.now orders.items }
    ensures long { IfOk result (λ x. length x.graphs ≡ suc (length (places unit.now))) }
    ensures made { IfOk result (λ x. (D : PlanData) (t : Tables) → D.literals ≡ x.literals → D.marks ≡ x.marks → AreGraphsAt D unit.now (λ g. slice_index_or orders.items g []) t x.graphs) }
    ensures begun { IfOk result (λ x. (D : PlanData) → D.literals ≡ x.literals → D.marks ≡ x.marks → IsBegun D) }
    ensures some { IfOk result (λ x. 0 < length x.literals) }
{
    let mut made = MadeGraphs {
        graphs: Seq::with_room(alloc, orders.len())?,
        literals: Seq::new(alloc),
        marks: Seq::new(alloc),
    };
    made.literals.add(Cell::Unfilled)?;
    let _whole = unit.unit();
    for order in orders {
        let number = made.graphs.len();
        let graph = graph_at(
            alloc,
            unit,
            facts,
            graphs,
            number,
            order,
            &mut made.literals,
            &mut made.marks,
        )?;
        made.graphs.add(graph)?;
    }
    Ok(made)
}
