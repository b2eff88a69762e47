//! A node.
ghost use Rattle.std.specs.Prelude.{◌≡◌, ◌++◌, List, length, None, Some, IfOk, OnOk};
ghost use Rattle.gapped.specs.Spread.{spread};
ghost use Rattle.plan_builder.specs.Ways.{multiple_by};
ghost use Rattle.node_works.specs.Tasks.{IsCallOrWhole, IsTask};
ghost use Rattle.plan_nodes.specs.Nodes.{IsSparse, callee_in, collects_by, node_by, plain_collects, plain_node, simple_by, whole_by, whole_node};
ghost use Rattle.port_feeds.specs.declared.filled.Filled.{Filled};
ghost use Rattle.plan_nodes.specs.Ports.{row_read, told_in};

use crate::collected::{read_ports, whole_ports};
use crate::parts::NodeParts;
use crate::ports::{
    all_ports, call_ports, compound_ports, simple_port, simple_ports, spread_ports,
};
use crate::told::{all_told, own_left, told_of};
use flow_value::{NoMemory, Seq, Shape};
use gapped::Gapped;
use if1_graph::Simple;
use node_works::Task;
use plan_builder::{
    Reading, add_collects, call_node, compound_node, multiple_of, reading_of, simple_node,
};
use plan_data::{PlanNode, Port, Work};
use port_feeds::Filled;
use row_counts::{counted_of, written_of};
use std::alloc::Global;
use step_code::Collect;

fn callee_in(work: &Work) -> Option<u32>
    ensures { result ≡ callee_in work.now }
{
    match work {
        Work::Call(callee) => Some(*callee),
        _ => None,
    }
}

fn whole_node(
    alloc: Global,
    work: Work,
    width: u32,
    filled: &[Filled],
) -> Result<PlanNode, NoMemory>
    requires { IsCallOrWhole work }
    ensures { IfOk result (λ node. node ≡ whole_node work width filled.now) }
{
    match callee_in(&work) {
        Some(callee) => {
            let ports = call_ports(alloc, filled)?;
            Ok(call_node(callee, width, all_ports(alloc, ports)))
        }
        None => {
            let ports = compound_ports(alloc, filled)?;
            Ok(compound_node(work, width, all_ports(alloc, ports)))
        }
    }
}

fn simple_by(
    row: Simple,
    own: Simple,
    shape: Shape,
    told: bool,
    joined: bool,
    marks: u32,
    ports: Gapped<Port>,
) -> PlanNode
    ensures { (fs : List Filled) → told ≡ told_in fs own → result ≡ simple_by fs joined marks row own shape ports }
{
    let written = written_of(own, joined);
    let counted = counted_of(own, told, marks);
    simple_node(row, shape, written, counted, ports)
}

fn row_read(reading: Reading, row: Simple) -> Simple
    ensures { result ≡ row_read reading row }
{
    match reading {
        Reading::Last(_) => Simple::NoOp,
        _ => row,
    }
}

fn number_of(collects: &Seq<Collect>) -> Result<u32, NoMemory>
    ensures { IfOk result (λ number. number ≡ length collects.now) }
{
    match u32::try_from(collects.len()) {
        Ok(number) => Ok(number),
        Err(_) => Err(NoMemory),
    }
}

fn returned_node(
    alloc: Global,
    plain: u32,
    row: Simple,
    shape: Shape,
    filled: &[Filled],
    joined: bool,
    marks: u32,
    collects: &mut Seq<Collect>,
) -> Result<PlanNode, NoMemory>
    ensures node { IfOk result (λ node. node ≡ plain_node filled.now joined marks (Some plain) (length collects.old) row shape) }
    ensures collects { OnOk result (collects.new ≡ collects.old ++ plain_collects (Some plain) row filled.now) }
{
    let number = number_of(collects)?;
    let ports = simple_ports(alloc, filled)?;
    let reading = reading_of(plain, own_left(filled, row), row, ports.as_slice());
    let ins = read_ports(alloc, reading, plain, number, filled)?;
    add_collects(plain, reading, ports.as_slice(), collects)?;
    Ok(simple_by(
        row_read(reading, row),
        row,
        shape,
        told_of(filled, row),
        joined,
        marks,
        all_ports(alloc, ins),
    ))
}

fn returned_all(
    alloc: Global,
    plain: u32,
    row: Simple,
    shape: Shape,
    filled: &Gapped<Filled>,
    joined: bool,
    marks: u32,
    collects: &mut Seq<Collect>,
) -> Result<PlanNode, NoMemory>
    ensures node { IfOk result (λ node. node ≡ plain_node filled.now joined marks (Some plain) (length collects.old) row shape) }
    ensures collects { OnOk result (collects.new ≡ collects.old ++ plain_collects (Some plain) row filled.now) }
{
    let listed = filled.listed(alloc)?;
    let ports = listed.as_slice();
    returned_node(alloc, plain, row, shape, ports, joined, marks, collects)
}

fn returned_sparse(
    alloc: Global,
    plain: u32,
    row: Simple,
    shape: Shape,
    filled: &Gapped<Filled>,
    joined: bool,
    marks: u32,
    collects: &mut Seq<Collect>,
) -> Result<PlanNode, NoMemory>
    requires { IsSparse row }
    ensures node { IfOk result (λ node. node ≡ plain_node filled.now joined marks (Some plain) (length collects.old) row shape) }
    ensures collects { OnOk result (collects.new ≡ collects.old ++ plain_collects (Some plain) row filled.now) }
{
    let own = filled.kept();
    match multiple_of(plain, own.filler.feed) {
        Some(_) => returned_all(alloc, plain, row, shape, filled, joined, marks, collects),
        None => returned_kept(
            alloc, plain, row, shape, own.filler, own.gaps, own.items, joined, marks, collects,
        ),
    }
}

fn returned_kept(
    alloc: Global,
    plain: u32,
    row: Simple,
    shape: Shape,
    filler: Filled,
    gaps: &[u32],
    items: &[Filled],
    joined: bool,
    marks: u32,
    collects: &mut Seq<Collect>,
) -> Result<PlanNode, NoMemory>
    requires sparse { IsSparse row }
    requires none { multiple_by plain filler.feed ≡ None }
    ensures node { IfOk result (λ node. node ≡ plain_node (spread filler gaps.now items.now) joined marks (Some plain) (length collects.old) row shape) }
    ensures collects { OnOk result (collects.new ≡ collects.old ++ plain_collects (Some plain) row (spread filler gaps.now items.now)) }
{
    let number = number_of(collects)?;
    let numbers = Seq::from_slice(alloc, gaps)?;
    let ports = simple_ports(alloc, items)?;
    let ins = whole_ports(alloc, plain, number, items)?;
    add_collects(plain, Reading::Whole, ports.as_slice(), collects)?;
    let all = Gapped::new(simple_port(filler), numbers, ins);
    Ok(simple_by(row, row, shape, false, joined, marks, all))
}

fn plain_node(
    alloc: Global,
    plain: Option<u32>,
    row: Simple,
    shape: Shape,
    filled: &Gapped<Filled>,
    joined: bool,
    marks: u32,
    collects: &mut Seq<Collect>,
) -> Result<PlanNode, NoMemory>
    ensures node { IfOk result (λ node. node ≡ plain_node filled.now joined marks plain (length collects.old) row shape) }
    ensures collects { OnOk result (collects.new ≡ collects.old ++ plain_collects plain row filled.now) }
{
    match plain {
        Some(plain) => match row {
            Simple::RBuild | Simple::RReplace => {
                returned_sparse(alloc, plain, row, shape, filled, joined, marks, collects)
            }
            _ => returned_all(alloc, plain, row, shape, filled, joined, marks, collects),
        },
        None => {
            let ports = spread_ports(alloc, filled)?;
            let told = all_told(alloc, filled, row)?;
            Ok(simple_by(row, row, shape, told, joined, marks, ports))
        }
    }
}

/// The node of which so much is known. What is collected for it, where the graph is a returns with so
/// many inputs that are no multiples, is put behind the other collections.
pub fn node_of(
    alloc: Global,
    plain: Option<u32>,
    parts: NodeParts,
    collects: &mut Seq<Collect>,
) -> Result<PlanNode, NoMemory>
    requires { IsTask parts.task }
    ensures node { IfOk result (λ node. node ≡ node_by plain (length collects.old) parts) }
    ensures collects { OnOk result (collects.new ≡ collects.old ++ collects_by plain parts) }
{
    let NodeParts {
        task,
        width,
        ports,
        joined,
        marks,
    } = parts;
    match task {
        Task::Plain(row, shape) => {
            plain_node(alloc, plain, row, shape, &ports, joined, marks, collects)
        }
        Task::Whole(work) => {
            let filled = ports.listed(alloc)?;
            whole_node(alloc, work, width, filled.as_slice())
        }
    }
}
