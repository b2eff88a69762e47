//! Where the outputs of a graph's nodes stand.
ghost use Rattle.std.specs.Prelude.{◌≡◌, ℕ, ◌+◌, ◌-◌, ◌^◌, ◌<◌, ◌≤◌, ◌↔◌, List, length, slice_index, All, Contains, IfOk};
ghost use Rattle.std.specs.List.Sorted.{IsStrictlyIncreasing};
ghost use Rattle.graph_meaning.specs.Demand.{Vertex};
ghost use Rattle.run_code.specs.Cells.{At};
ghost use Rattle.run_code.specs.Made.{Plan, put};
ghost use Rattle.if1_order.specs.Feeders.{IsPlace};
ghost use Rattle.plan_builder.specs.Outlets.{AreLaid, AreOutlets, AreStarts, IsOutlet, cells_of, start_of};

use flow_value::{NoMemory, Numbers, Seq};
use if1_order::{Places, place_of};
use std::alloc::Global;

/// Where the outputs of the nodes of a graph stand.
#[derive(Drop)]
pub struct Outlets {
    /// The labels of the nodes, which rise.
    pub labels: Numbers,
    /// The places of the nodes, in the order in which they fire.
    pub order: Places,
    /// How many outputs each node has, by its place.
    pub widths: Numbers,
    /// So many cells behind the first one of the graph's nodes the outputs of each node begin, by its
    /// place.
    pub starts: Numbers,
}

/// So many outputs have the nodes at these places; more than 32 bits count are want of memory.
fn cells_of(widths: &[u32], order: &[usize]) -> Result<u32, NoMemory>
    requires { All (λ k. k < length widths.now) order.now }
    ensures { IfOk result (λ n. n ≡ cells_of widths.now order.now) }
{
    let mut cells: u32 = 0;
    for place in order {
        match cells.checked_add(widths[*place]) {
            Some(sum) => cells = sum,
            None => return Err(NoMemory),
        }
    }
    Ok(cells)
}

fn zeros(alloc: Global, count: usize) -> Result<Numbers, NoMemory>
    ensures { IfOk result (λ ns. length ns ≡ count) }
{
    let mut list = Seq::with_room(alloc, count)?;
    for place in 0..count {
        list.add(0)?;
    }
    Ok(list)
}

/// Where the outputs of the nodes at these places begin, where they stand behind one another; more
/// cells than 32 bits count are want of memory.
fn starts_of(alloc: Global, widths: &[u32], order: &[usize]) -> Result<Numbers, NoMemory>
    requires { All (λ k. k < length widths.now) order.now }
    ensures { IfOk result (AreStarts widths.now order.now) }
{
    let mut starts = zeros(alloc, widths.len())?;
    let mut begin = cells_of(widths, order)?;
    let mut index = order.len();
    while index > 0 {
        index -= 1;
        let place = order[index];
        begin -= widths[place];
        starts.set(place, begin);
    }
    Ok(starts)
}

/// Where the outputs of the nodes with these labels stand, of which each has so many, in this order.
/// More cells than 32 bits count are want of memory.
pub fn outlets_of(
    alloc: Global,
    labels: Numbers,
    widths: Numbers,
    order: Places,
) -> Result<Outlets, NoMemory>
    requires rising { IsStrictlyIncreasing labels }
    requires long { length widths ≡ length labels }
    requires inside { (k : ℕ) → Contains order k ↔ (k < length labels) }
    ensures are { IfOk result AreOutlets }
    ensures labels { IfOk result (λ x. x.labels ≡ labels) }
    ensures widths { IfOk result (λ x. x.widths ≡ widths) }
    ensures order { IfOk result (λ x. x.order ≡ order) }
{
    let starts = starts_of(alloc, widths.as_slice(), order.as_slice())?;
    Ok(Outlets {
        labels,
        order,
        widths,
        starts,
    })
}

/// So many cells behind the first one of the graph's nodes an output of the node of this label stands.
/// Takes a search among the labels.
pub fn outlet(outlets: &Outlets, node: u32, port: u32) -> u32
    requires are { AreOutlets outlets.now }
    requires there { IsOutlet outlets.now node port }
    ensures here { (P : Plan) (vs : List Vertex) → AreLaid P outlets.now vs → (lo : ℕ) → put P vs lo node port ≡ At (lo + result) }
    ensures below { result < cells_of outlets.now.widths outlets.now.order }
{
    match place_of(outlets.labels.as_slice(), node) {
        Some(place) => outlets.starts.as_slice()[place] + (port - 1),
        None => unreachable!(),
    }
}
