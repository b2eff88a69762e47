//! The nodes of a graph.
ghost use Rattle.std.specs.Prelude.{◌≡◌, ℕ, Bool, false, [], List};
ghost use Rattle.if1_graph.specs.Rows.{row_of};
ghost use Rattle.graph_meaning.specs.Demand.{Vertex};
ghost use Rattle.graph_meaning.specs.Demand as demand;
ghost use Rattle.graph_meaning.specs.Forms as form;
ghost use Rattle.graph_meaning.specs.Laws.{outputs_by};
ghost use Rattle.step_code.specs.Operands.{shape_of};
ghost use Rattle.run_code.specs.Made.{Plan};
ghost use Rattle.step_code.specs.Ports.{picks_of};
ghost use Rattle.plan_data.specs.Settings.{Shares};
ghost use Rattle.plan_data.specs.declared.plan.PlanData.{PlanData};
ghost use Rattle.plan_data.specs.Parts.{IsWhole, kind_of};
ghost use Rattle.plan_data.specs.Stands.{AreFed, IsNode};
ghost use Rattle.plan_data.specs.declared.plan.Work.TheVariants as Work;
ghost use Rattle.plan_builder.specs.Nodes.{AreHandled, given_by, handled_by, made_node};

use crate::widths::plain_width;
use flow_value::Shape;
use gapped::Gapped;
use if1_graph::Simple;
use plan_data::{Feed, Handled, PlanNode, Port, Work};
use step_code::{Counted, Written};

/// A port of a simple node or Call, with what fills it, whether the node takes that, and whether it
/// copies what it does not take.
pub fn port_of(feed: Feed, takes: bool, copies: bool) -> Port
    ensures fed { result.feed ≡ feed }
    ensures handled { result.handled ≡ handled_by takes copies }
{
    let handled = if takes {
        Handled::Takes
    } else if copies {
        Handled::Copies
    } else {
        Handled::Looks
    };
    Port { feed, handled }
}

/// A port of a compound node, with what fills it, whether the node takes that, and whether it copies
/// that for its parts.
pub fn given_port(feed: Feed, takes: bool, copies: bool) -> Port
    ensures fed { result.feed ≡ feed }
    ensures handled { result.handled ≡ given_by takes copies }
{
    let handled = if copies {
        Handled::Copies
    } else if takes {
        Handled::Takes
    } else {
        Handled::Looks
    };
    Port { feed, handled }
}

/// A simple node other than a Call, with its ports, from 1 on.
pub fn simple_node(
    row: Simple,
    shape: Shape,
    written: Written,
    counted: Counted,
    ins: Gapped<Port>,
) -> PlanNode
    ensures made { result ≡ made_node (Work.Plain row shape written counted) (outputs_by (row_of row).gives (shape_of shape)) ins }
    ensures stands { (D : PlanData) (P : Plan) (S : Shares) (g : ℕ) (v : Vertex) → v.kind ≡ demand.Plain row (shape_of shape) → P.width v ≡ outputs_by (row_of row).gives (shape_of shape) → AreFed D P S g ins v.ins → AreHandled handled_by (S.takes g v.label) (S.copies g v.label) 1 ins → IsNode D P S g result v }
{
    PlanNode {
        work: Work::Plain(row, shape, written, counted),
        width: plain_width(row, shape),
        ins,
    }
}

/// A Call of the function of a number, which gives so many results, with its arguments, which stand at
/// the ports from 2 on.
pub fn call_node(callee: u32, width: u32, ins: Gapped<Port>) -> PlanNode
    ensures made { result ≡ made_node (Work.Call callee) width ins }
    ensures stands { (D : PlanData) (P : Plan) (S : Shares) (g : ℕ) (v : Vertex) → v.kind ≡ demand.Whole (form.Call callee) → P.width v ≡ width → AreFed D P S g ins v.ins → AreHandled handled_by (S.takes g v.label) (S.copies g v.label) 2 ins → IsNode D P S g result v }
{
    PlanNode {
        work: Work::Call(callee),
        width,
        ins,
    }
}

/// A compound node with so many outputs, with its ports, from 1 on. It takes nothing where it has no
/// ports.
pub fn compound_node(work: Work, width: u32, ins: Gapped<Port>) -> PlanNode
    requires { IsWhole work }
    ensures made { result ≡ made_node work width ins }
    ensures stands { (D : PlanData) (P : Plan) (S : Shares) (g : ℕ) (v : Vertex) (copies : (port : ℕ) → Bool) → v.kind ≡ kind_of work width → P.width v ≡ width → P.picks g v ≡ picks_of copies 1 v.ins → (v.ins ≡ [] → S.takes g v.label 1 ≡ false) → AreFed D P S g ins v.ins → AreHandled given_by (S.takes g v.label) copies 1 ins → IsNode D P S g result v }
{
    PlanNode { work, width, ins }
}
