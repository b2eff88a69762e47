//! An order of the nodes of each graph of a unit.
ghost use Rattle.std.specs.Prelude.{◌≡◌, ℕ, suc, [], length, slice_index_or, All, IfOk};
ghost use Rattle.if1_graph.specs.Units.{places};
ghost use Rattle.graph_meaning.specs.Networks.{network};
ghost use Rattle.ordered_meaning.specs.Orders.{AreInOrder};
ghost use Rattle.firing_order.specs.Orders.{order_by};
ghost use Rattle.mark_check.specs.Graphs.{lent};
ghost use Rattle.unit_orders.specs.Orders.{CanFire, AreOrdersOf, AreFiringOrders};

use firing_order::firing_order;
use flow_value::{NoMemory, Seq};
use if1_graph::Graph;
use if1_order::Places;
use if1_sound::Sound;
use mark_check::all_graphs;
use std::alloc::Global;

// one list more than there are graphs, since numbers begin with 1
fn orders_by(alloc: Global, graphs: &[&Graph]) -> Result<Vec<Places>, NoMemory>
    requires { All CanFire (lent graphs.now) }
    ensures { IfOk result (λ os. AreOrdersOf (lent graphs.now) os.items) }
{
    let mut orders = Vec::new(alloc);
    orders.push(Seq::new(alloc))?;
    for graph in graphs {
        let order = firing_order(alloc, graph)?;
        orders.push(order)?;
    }
    Ok(orders)
}

/// For each graph of a unit, by its number, the places of its nodes, each once, after all nodes that
/// feed it and all on its ordering list (IF1 manual M-170). List 0 is empty, since numbers begin with 1.
/// Takes time linear in the nodes, and for each edge and entry of a list that of two searches among the
/// nodes of its graph.
pub fn firing_orders(alloc: Global, unit: &Sound) -> Result<Vec<Places>, NoMemory>
    ensures fit { IfOk result (λ os. length os.items ≡ suc (length (places unit.now))) }
    ensures orders { IfOk result (λ os. AreFiringOrders unit.now os.items) }
    ensures in_order { IfOk
        result
        (λ os. AreInOrder (network unit.now) (order_by unit.now (λ g. slice_index_or os.items g []))) }
{
    let graphs = all_graphs(alloc, unit.unit())?;
    let orders = orders_by(alloc, graphs.as_slice())?;
    Ok(orders)
}
