//! The nodes of a graph, one after another.
ghost use Rattle.std.specs.Prelude.{◌≡◌, ℕ, List, [], ◌∷◌, ◌++◌, OnOk};
ghost use Rattle.if1_graph.specs.declared.graph.Node.{Node};
ghost use Rattle.if1_graph.specs.declared.graph.Unit1.{Unit1};
ghost use Rattle.if1_graph.specs.Ready.{IsReady};
ghost use Rattle.if1_graph.specs.Units.{Place, number_of};
ghost use Rattle.graph_meaning.specs.Demand.{Vertex};
ghost use Rattle.graph_meaning.specs.Networks.{vertex_of};
ghost use Rattle.plan_data.specs.declared.plan.PlanData.{PlanData};
ghost use Rattle.plan_data.specs.declared.plan.PlanNode.{PlanNode};
ghost use Rattle.told_rows.specs.Plans.{Tables, plain_of};
ghost use Rattle.node_works.specs.Tasks.{IsTask};
ghost use Rattle.plan_nodes.specs.Made.{AreMade, IsMadeOf, IsOfNode};

use crate::nodes::node_of;
use crate::parts::NodeParts;
use flow_value::{NoMemory, Seq};
use plan_data::PlanNode;
use std::alloc::Global;
use step_code::Collect;

/// Puts the node of which so much is known behind the others, and what is collected for it behind the
/// other collections, where the graph is a returns with so many inputs that are no multiples. More
/// collections and inputs than 32 bits count are want of memory; then some of it may have been put.
pub fn add_node(
    alloc: Global,
    plain: Option<u32>,
    parts: NodeParts,
    nodes: &mut Seq<PlanNode>,
    collects: &mut Seq<Collect>,
) -> Result<(), NoMemory>
    requires task { IsTask parts.task }
    ensures made { OnOk result ((D : PlanData) (u : Unit1) (order : (graph : ℕ) → List Vertex) (t : Tables) (p : Place) (n : Node) (vs : List Vertex) → IsReady u → plain_of u (number_of p) ≡ plain → IsOfNode D u order t p n parts → AreMade D u order t (number_of p) vs nodes.old collects.old → AreMade D u order t (number_of p) (vs ++ vertex_of u p.graph n ∷ []) nodes.new collects.new) }
    ensures added { OnOk result ((node : PlanNode) × (nodes.new ≡ nodes.old ++ node ∷ []) × IsMadeOf parts node) }
{
    let node = node_of(alloc, plain, parts, collects)?;
    nodes.add(node)?;
    Ok(())
}
