//! What fills ports.
ghost use Rattle.std.specs.Prelude.{◌≡◌, ℕ, List, Option, IfOk};
ghost use Rattle.if1_graph.specs.Ports.{IsUpTo};
ghost use Rattle.graph_meaning.specs.Carried.{Unfilled};
ghost use Rattle.graph_meaning.specs.Demand.{Fixed};
ghost use Rattle.graph_meaning.specs.Demand as demand;
ghost use Rattle.run_code.specs.Made.{Plan};
ghost use Rattle.step_code.specs.Cell.{Cell};
ghost use Rattle.step_code.specs.Held.{held};
ghost use Rattle.step_code.specs.Stored.{owned_in};
ghost use Rattle.plan_data.specs.Settings.{Shares};
ghost use Rattle.plan_data.specs.declared.plan.PlanData.{PlanData};
ghost use Rattle.plan_data.specs.Parts.{IsBelow, literal_in};
ghost use Rattle.plan_data.specs.Stands.{IsFed};
ghost use Rattle.plan_builder.specs.Outlets.{AreLaid, AreOutlets, cells_of};
ghost use Rattle.plan_builder.specs.Feeds.{HasLiterals, IsInput, IsSource};

use crate::outlets::{Outlets, outlet};
use flow_value::{NoMemory, Seq};
use plan_data::Feed;
use step_code::Cell;

/// What fills a port to which an output of a node leads, or for node 0 an input of the graph.
pub fn port_feed(outlets: &Outlets, node: u32, port: u32) -> Feed
    requires are { AreOutlets outlets.now }
    requires there { IsSource outlets.now node port }
    ensures fed { (D : PlanData) (P : Plan) (S : Shares) (g : ℕ) → AreLaid P outlets.now (P.nodes g) → IsFed D P S g result (demand.Port node port) }
    ensures below { IsBelow (cells_of outlets.now.widths outlets.now.order) result }
    ensures input { (many : Option ℕ) → (node ≡ 0 → IsUpTo many port) → IsInput many result }
{
    if node == 0 {
        return Feed::Input(port - 1);
    }
    Feed::Output(outlet(outlets, node, port))
}

/// What fills a port to which no edge leads.
pub fn unfilled_feed() -> Feed
    ensures fed { (D : PlanData) (P : Plan) (S : Shares) (g : ℕ) → literal_in D 0 ≡ Unfilled → IsFed D P S g result (Fixed Unfilled) }
    ensures below { (cells : ℕ) → IsBelow cells result }
    ensures input { (many : Option ℕ) → IsInput many result }
{
    Feed::Literal(0)
}

/// What fills a port to which a literal leads, which is put behind the others; more than 32 bits count
/// are want of memory.
pub fn literal_feed(literals: &mut Seq<Cell>, literal: Cell) -> Result<Feed, NoMemory>
    ensures kept { (D : PlanData) → HasLiterals literals.new D → HasLiterals literals.old D }
    ensures fed { IfOk result (λ feed. (D : PlanData) (P : Plan) (S : Shares) (g : ℕ) → HasLiterals literals.new D → IsFed D P S g feed (Fixed (owned_in (held literal)))) }
    ensures below { IfOk result (λ feed. (cells : ℕ) → IsBelow cells feed) }
    ensures input { IfOk result (λ feed. (many : Option ℕ) → IsInput many feed) }
{
    match u32::try_from(literals.len()) {
        Ok(number) => {
            literals.add(literal)?;
            Ok(Feed::Literal(number))
        }
        Err(_) => Err(NoMemory),
    }
}
