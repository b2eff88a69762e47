//! The nodes of a graph.
ghost use Rattle.std.specs.Prelude.{◌≡◌, ◌<◌, ℕ, List, Some, slice_get, length, All, Contains, IfOk, OnOk};
ghost use Rattle.if1_graph.specs.declared.graph.Graph.TheViews.{out-Graph};
ghost use Rattle.if1_graph.specs.declared.graph.Node.{Node};
ghost use Rattle.if1_graph.specs.Units.{Place, label_of, number_of, places};
ghost use Rattle.graph_meaning.specs.Networks.{kind_of};
ghost use Rattle.graph_meaning.specs.StorageUnits.{storage_of};
ghost use Rattle.output_marks.specs.FiringOrderOrders.{order_by};
ghost use Rattle.plan_nodes.specs.Plans.{Tables, plain_of};
ghost use Rattle.plan_data.specs.declared.plan.PlanData.{PlanData};
ghost use Rattle.plan_data.specs.Parts.{IsBelow};
ghost use Rattle.plan_builder.specs.Outlets.{cells_of};
ghost use Rattle.plan_nodes.specs.Tables.{IsGraphOf};
ghost use Rattle.plan_nodes.specs.Tasks.{IsTask, task_kind};
ghost use Rattle.plan_nodes.specs.Made.{AreMade, AreOutputsMarked, IsOfNode};
ghost use Rattle.unit_data.specs.Facts.{AreFacts, AreFactsAt};
ghost use Rattle.unit_data.specs.Graphs.{AreAllBelow, GoesOn, HasMarks, IsBegun};

use crate::facts::{Facts, GraphFacts};
use flow_value::{NoMemory, Seq};
use if1_graph::Graph;
use if1_sound::Sound;
use output_marks::add_marks;
use plan_data::PlanNode;
use plan_nodes::{NodeParts, Task, add_node, ports_of, task_of};
use std::alloc::Global;
use step_code::{Cell, Collect};

/// What was made of the nodes of a graph.
#[derive(Drop)]
pub struct MadeNodes {
    /// The nodes in their order.
    pub nodes: Seq<PlanNode>,
    /// What is collected for them.
    pub collects: Seq<Collect>,
}

/// Puts the marks of the outputs of a simple node behind the others, and gives the number of the first.
fn marks_for(
    unit: &Sound,
    graph: &Graph,
    known: &GraphFacts,
    label: u32,
    task: &Task,
    width: u32,
    marks: &mut Seq<bool>,
) -> Result<u32, NoMemory>
    requires here { IsGraphOf unit.now graph.now }
    requires known { AreFactsAt unit.now graph.now known.now }
    requires task { IsTask task.now }
    ensures kept { OnOk result ((D : PlanData) → HasMarks marks.new D → HasMarks marks.old D) }
    ensures told { IfOk result (λ first. (D : PlanData) (p : Place) (n : Node) → HasMarks marks.new D → Contains (places unit.now) p → p.graph ≡ graph.now → Contains (out-Graph graph.now).nodes n → label_of n ≡ label → kind_of unit.now graph.now n ≡ task_kind task.now width → AreOutputsMarked (storage_of unit.now) (number_of p) label D.marks width first (kind_of unit.now graph.now n)) }
{
    let whole = unit.unit();
    match task {
        Task::Plain(row, _) => {
            let first = add_marks(whole, graph, &known.outputs, label, *row, width, marks)?;
            Ok(first)
        }
        Task::Whole(_) => Ok(0),
    }
}

/// The label of the node at a place of a graph.
fn label_at(graph: &Graph, place: usize) -> u32
    requires { place < length (out-Graph graph.now).nodes }
    ensures { (n : Node) → slice_get (out-Graph graph.now).nodes place ≡ Some n → result ≡ label_of n }
{
    graph.nodes.as_slice()[place].label
}

/// What is known of the node at a place of a graph; its literals and marks are put behind the others.
fn parts_of(
    alloc: Global,
    unit: &Sound,
    facts: &Facts,
    graph: &Graph,
    known: &GraphFacts,
    place: usize,
    literals: &mut Seq<Cell>,
    marks: &mut Seq<bool>,
) -> Result<NodeParts, NoMemory>
    requires facts { AreFacts unit.now facts.now }
    requires here { IsGraphOf unit.now graph.now }
    requires known { AreFactsAt unit.now graph.now known.now }
    requires inside { place < length (out-Graph graph.now).nodes }
    ensures kept { OnOk result ((D : PlanData) → GoesOn literals.new marks.new D → GoesOn literals.old marks.old D) }
    ensures task { IfOk result (λ x. IsTask x.task) }
    ensures parts { IfOk result (λ x. (D : PlanData) (os : (graph : ℕ) → List ℕ) (t : Tables) (p : Place) (n : Node) → GoesOn literals.new marks.new D → IsBegun D → Contains (places unit.now) p → p.graph ≡ graph.now → known.now.outlets.order ≡ os (number_of p) → slice_get (out-Graph p.graph).nodes place ≡ Some n → IsOfNode D unit.now (order_by unit.now os) t p n x) }
    ensures below { IfOk result (λ x. All (λ f. IsBelow (cells_of known.now.outlets.widths known.now.outlets.order) f.feed) x.ports) }
{
    let _whole = unit.unit();
    let label = label_at(graph, place);
    let task = task_of(
        alloc,
        unit,
        &facts.tables,
        known.types.as_slice(),
        graph,
        place,
    )?;
    let width = known.outlets.widths.as_slice()[place];
    let ports = ports_of(
        alloc,
        unit,
        graph,
        facts.aggregates.as_slice(),
        facts.consumed.as_slice(),
        &known.outlets,
        label,
        literals,
    )?;
    let joined = known.joined.has(label);
    let first = marks_for(unit, graph, known, label, &task, width, marks)?;
    Ok(NodeParts {
        task,
        width,
        ports,
        joined,
        marks: first,
    })
}

/// The nodes of a graph in their order, and what is collected for them, where so many of the graph's
/// inputs are no multiples if it is a returns; their literals and marks are put behind the others.
pub fn nodes_of(
    alloc: Global,
    unit: &Sound,
    facts: &Facts,
    graph: &Graph,
    known: &GraphFacts,
    plain: Option<u32>,
    literals: &mut Seq<Cell>,
    marks: &mut Seq<bool>,
) -> Result<MadeNodes, NoMemory>
    requires facts { AreFacts unit.now facts.now }
    requires here { IsGraphOf unit.now graph.now }
    requires known { AreFactsAt unit.now graph.now known.now }
    ensures kept { OnOk result ((D : PlanData) → GoesOn literals.new marks.new D → GoesOn literals.old marks.old D) }
    ensures made { IfOk result (λ x. (D : PlanData) (os : (graph : ℕ) → List ℕ) (t : Tables) (p : Place) → GoesOn literals.new marks.new D → IsBegun D → Contains (places unit.now) p → p.graph ≡ graph.now → plain_of unit.now (number_of p) ≡ plain → known.now.outlets.order ≡ os (number_of p) → AreMade D unit.now (order_by unit.now os) t (number_of p) (order_by unit.now os (number_of p)) x.nodes x.collects) }
    ensures below { IfOk result (λ x. AreAllBelow (cells_of known.now.outlets.widths known.now.outlets.order) x.nodes) }
{
    let _whole = unit.unit();
    let mut made = MadeNodes {
        nodes: Seq::with_room(alloc, graph.nodes.len())?,
        collects: Seq::new(alloc),
    };
    for place in known.outlets.order.as_slice() {
        let parts = parts_of(alloc, unit, facts, graph, known, *place, literals, marks)?;
        add_node(alloc, plain, parts, &mut made.nodes, &mut made.collects)?;
    }
    Ok(made)
}
