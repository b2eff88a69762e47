//! What the nodes of a graph do.
ghost use Rattle.std.specs.Prelude.{◌≡◌, ◌<◌, ℕ, length, map, slice_get, All, AllPairs, None, Some, IfOk};
ghost use Rattle.if1_graph.specs.declared.graph.Graph.TheViews.{out-Graph};
ghost use Rattle.if1_graph.specs.declared.graph.Node.{Node, out-Node};
ghost use Rattle.if1_graph.specs.declared.graph.Unit1.{Unit1};
ghost use Rattle.if1_graph.specs.Normal.{Precedes};
ghost use Rattle.graph_meaning.specs.Networks.{kind_as, kind_of};
ghost use Rattle.unit_plan.specs.Plans.{functions_of, outputs_in};
ghost use Rattle.node_works.specs.Tables.{AreTablesOf, IsGraphOf, number_by, output_label};
ghost use Rattle.node_works.specs.Tasks.{IsTask, IsTaskAbove, IsTaskCalling, task_kind};

use crate::functions::Callee;
use crate::into::callee_at;
use crate::parts::work_of;
use crate::shapes::shape_at;
use crate::tables::UnitTables;
use crate::task::Task;
use flow_value::{NoMemory, Shape};
use if1_graph::{Graph, Node, Simple, compound_of, simple_of};
use if1_sound::Sound;
use plan_data::Work;
use std::alloc::Global;

fn number_of(callee: Option<Callee>) -> u32
    ensures { result ≡ number_by callee }
{
    match callee {
        Some(callee) => callee.number,
        None => 0,
    }
}

fn simple_task(
    tables: &UnitTables,
    output: Option<u32>,
    graph: &Graph,
    node: &Node,
    row: Option<Simple>,
) -> Task
    requires { AllPairs Precedes (out-Graph graph.now).edges }
    ensures kind { (u : Unit1) (w : ℕ) → AreTablesOf u tables.now → output ≡ output_label graph.now node.now → kind_as u graph.now node.now None row ≡ task_kind result w }
    ensures whole { IsTask result }
{
    match row {
        Some(Simple::Call) => {
            Task::Whole(Work::Call(number_of(callee_at(tables, graph, node.label))))
        }
        Some(row) => Task::Plain(row, shape_at(tables, output, graph, node, row)),
        None => Task::Plain(Simple::Error, Shape::Plain),
    }
}

fn node_task(
    alloc: Global,
    tables: &UnitTables,
    output: Option<u32>,
    graph: &Graph,
    node: &Node,
) -> Result<Task, NoMemory>
    requires order { AllPairs Precedes (out-Graph graph.now).edges }
    requires inside { All (λ g. AllPairs Precedes (out-Graph g).edges) (out-Node node.now).subs }
    ensures kind { IfOk result (λ t. (u : Unit1) → AreTablesOf u tables.now → output ≡ output_label graph.now node.now → kind_of u graph.now node.now ≡ task_kind t (outputs_in u (kind_of u graph.now node.now))) }
    ensures whole { IfOk result IsTask }
{
    match compound_of(node.op) {
        Some(compound) => {
            let work = work_of(alloc, compound, node.subs.as_slice(), node.assoc.as_slice())?;
            Ok(Task::Whole(work))
        }
        None => Ok(simple_task(tables, output, graph, node, simple_of(node.op))),
    }
}

/// What the node at a place of a graph does, by what leaves each node of the graph. Takes the time of
/// some searches, and looks at the edges into it and at the results of the graphs inside it.
pub fn task_of(
    alloc: Global,
    unit: &Sound,
    tables: &UnitTables,
    outputs: &[Option<u32>],
    graph: &Graph,
    place: usize,
) -> Result<Task, NoMemory>
    requires tables { AreTablesOf unit.now tables.now }
    requires outputs { outputs.now ≡ map (output_label graph.now) (out-Graph graph.now).nodes }
    requires here { IsGraphOf unit.now graph.now }
    requires inside { place < length (out-Graph graph.now).nodes }
    ensures kind { IfOk
        result
        (λ t. (n : Node) → slice_get (out-Graph graph.now).nodes place ≡ Some n → kind_of unit.now graph.now n ≡ task_kind t (outputs_in unit.now (kind_of unit.now graph.now n))) }
    ensures whole { IfOk result IsTask }
    ensures above { IfOk result (IsTaskAbove (out-Graph graph.now).number) }
    ensures calls { IfOk result (IsTaskCalling (functions_of unit.now)) }
{
    unit.unit();
    let node = &graph.nodes.as_slice()[place];
    let task = node_task(alloc, tables, outputs[place], graph, node)?;
    Ok(task)
}
