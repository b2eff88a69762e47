//! Steps of nodes of whose ports few may be filled.
ghost use Rattle.std.specs.Prelude.{◌≡◌, ◌-◌, ◌^◌, ◌≤◌, [], ◌∷◌, true, map, length, IfSome, OnOk};
ghost use Rattle.gapped.specs.Spread.{spread};
ghost use Rattle.node_ops.specs.Operands.{shape_of};
ghost use Rattle.run_code.specs.Made.{Origin, Plan, line};
ghost use Rattle.run_code.specs.Steps as Made;
ghost use Rattle.plan_data.specs.Settings.{Cells_of};
ghost use Rattle.plan_data.specs.Settled.{setting};
ghost use Rattle.step_code.specs.Laid.{counted_by, row_of, shape_in};
ghost use Rattle.plan_data.specs.Parts.{AreBelow, IsFormed, mode_of};
ghost use Rattle.code_maker.specs.Seats.{at_seats, seats_at};
ghost use Rattle.code_maker.specs.Grows.{Grows, IsToldOf};
ghost use Rattle.code_maker.specs.Sparse.{IsSparseNode, IsUnfilled};

use crate::draft::{Draft, add_ports, count_of};
use crate::seats::Seat;
use crate::steps::add_fire;
use flow_value::{NoMemory, Shape};
use gapped::{Gapped, Items};
use if1_graph::Simple;
use plan_data::{Feed, Handled, PlanData, Port};
use std::alloc::Global;
use step_code::{Counted, SparseRow, Step, Written};

/// A node that a step of few operands can fire.
#[derive(Clone, Copy)]
pub struct SparseNode {
    /// The node.
    pub row: SparseRow,
    /// Whether the operands that are copied are counted.
    pub copies: bool,
}

fn row_in(row: Simple, shape: Shape) -> Option<SparseRow>
    ensures { IfSome result (λ r. (row ≡ row_of r) × (shape_of shape ≡ shape_in r)) }
{
    match (row, shape) {
        (Simple::RBuild, Shape::Union) => Some(SparseRow::Union),
        (Simple::RBuild, Shape::Plain) => Some(SparseRow::Record),
        (Simple::RReplace, Shape::Plain) => Some(SparseRow::Change),
        _ => None,
    }
}

fn copies_in(counted: Counted) -> Option<bool>
    ensures { IfSome result (λ b. counted ≡ counted_by b) }
{
    match counted {
        Counted::Nothing => Some(false),
        Counted::Operands => Some(true),
        _ => None,
    }
}

/// Whether a node is one of these.
fn sparse_node(
    row: Simple,
    shape: Shape,
    written: Written,
    counted: Counted,
    width: u32,
) -> Option<SparseNode>
    ensures { IfSome result (IsSparseNode row shape written counted width) }
{
    if width != 1 || !matches!(written, Written::Nothing) {
        return None;
    }
    Some(SparseNode {
        row: row_in(row, shape)?,
        copies: copies_in(counted)?,
    })
}

fn is_unfilled(port: Port) -> bool
    ensures { result ≡ true → IsUnfilled port }
{
    matches!(port.feed, Feed::Literal(0)) && matches!(port.handled, Handled::Looks)
}

/// Whether so few ports stand before those that are kept that a list of all is about as short.
fn are_near(gaps: &[u32]) -> bool {
    match gaps {
        [a] => *a <= 2,
        [a, b] => *a <= 2 && *b <= 2,
        _ => false,
    }
}

/// What is kept of ports, where the others are such that nothing fills them, and more than a few.
fn kept_of<'a>(ports: &'a Gapped<Port>) -> Option<Items<'a, Port>>
    ensures same { IfSome result (λ k. ports.now ≡ spread k.filler k.gaps.now k.items.now) }
    ensures unfilled { IfSome result (λ k. IsUnfilled k.filler) }
    ensures even { IfSome result (λ k. length k.gaps.now ≡ length k.items.now) }
{
    let kept = ports.kept();
    if is_unfilled(kept.filler) && kept.gaps.len() == kept.items.len() && !are_near(kept.gaps) {
        Some(kept)
    } else {
        None
    }
}

/// Adds a step that fires a simple node of which these ports are filled, each behind so many that are
/// not.
fn add_sparse(
    draft: &mut Draft,
    plan: &PlanData,
    args: &[Seat],
    first: u32,
    node: SparseNode,
    filler: Port,
    gaps: &[u32],
    items: &[Port],
    out: u32,
) -> Result<(), NoMemory>
    requires formed { IsFormed plan.now }
    requires below { AreBelow (2 ^ 32 - first) items.now }
    requires unfilled { IsUnfilled filler }
    requires even { length gaps.now ≡ length items.now }
    ensures { OnOk result ((P : Plan) (o : Origin) (lives owns : Cells_of) → IsToldOf plan.now P (row_of node.row) Written.Nothing (counted_by node.copies) 1 (map mode_of (spread filler gaps.now items.now)) o → Grows plan.now P draft.old draft.new (line o (Made.Fire (row_of node.row) (shape_in node.row) (at_seats plan.now (seats_at args.now first (spread filler gaps.now items.now))) out 1) ∷ []) (setting (map mode_of (spread filler gaps.now items.now)) [] lives owns ∷ [])) }
{
    let ins = count_of(draft.operands.len())?;
    let many = count_of(items.len())?;
    let numbers = count_of(draft.targets.len())?;
    add_ports(&mut draft.operands, plan, args, first, items)?;
    draft.targets.extend(gaps)?;
    draft.steps.add(Step::Sparse {
        row: node.row,
        gaps: numbers,
        ins,
        many,
        out,
        copies: node.copies,
    })
}

/// Adds a step that fires a simple node on all its ports.
fn add_all(
    alloc: Global,
    draft: &mut Draft,
    plan: &PlanData,
    args: &[Seat],
    first: u32,
    ports: &Gapped<Port>,
    row: Simple,
    shape: Shape,
    written: Written,
    counted: Counted,
    out: u32,
    width: u32,
) -> Result<(), NoMemory>
    requires formed { IsFormed plan.now }
    requires below { AreBelow (2 ^ 32 - first) ports.now }
    ensures { OnOk result ((P : Plan) (o : Origin) (lives owns : Cells_of) → IsToldOf plan.now P row written counted width (map mode_of ports.now) o → Grows plan.now P draft.old draft.new (line o (Made.Fire row (shape_of shape) (at_seats plan.now (seats_at args.now first ports.now)) out width) ∷ []) (setting (map mode_of ports.now) [] lives owns ∷ [])) }
{
    let listed = ports.listed(alloc)?;
    add_fire(
        draft,
        plan,
        args,
        first,
        listed.as_slice(),
        row,
        shape,
        written,
        counted,
        out,
        width,
    )
}

/// Adds a step that fires a node of this kind, of whose ports some are not filled.
fn add_kept(
    alloc: Global,
    draft: &mut Draft,
    plan: &PlanData,
    args: &[Seat],
    first: u32,
    ports: &Gapped<Port>,
    node: SparseNode,
    row: Simple,
    shape: Shape,
    written: Written,
    counted: Counted,
    out: u32,
    width: u32,
) -> Result<(), NoMemory>
    requires formed { IsFormed plan.now }
    requires below { AreBelow (2 ^ 32 - first) ports.now }
    requires node { IsSparseNode row shape written counted width node }
    ensures { OnOk result ((P : Plan) (o : Origin) (lives owns : Cells_of) → IsToldOf plan.now P row written counted width (map mode_of ports.now) o → Grows plan.now P draft.old draft.new (line o (Made.Fire row (shape_of shape) (at_seats plan.now (seats_at args.now first ports.now)) out width) ∷ []) (setting (map mode_of ports.now) [] lives owns ∷ [])) }
{
    match kept_of(ports) {
        Some(kept) => add_sparse(
            draft,
            plan,
            args,
            first,
            node,
            kept.filler,
            kept.gaps,
            kept.items,
            out,
        ),
        None => add_all(
            alloc, draft, plan, args, first, ports, row, shape, written, counted, out, width,
        ),
    }
}

/// Adds a step that fires a simple node of whose ports some are not filled.
fn add_some(
    alloc: Global,
    draft: &mut Draft,
    plan: &PlanData,
    args: &[Seat],
    first: u32,
    ports: &Gapped<Port>,
    row: Simple,
    shape: Shape,
    written: Written,
    counted: Counted,
    out: u32,
    width: u32,
) -> Result<(), NoMemory>
    requires formed { IsFormed plan.now }
    requires below { AreBelow (2 ^ 32 - first) ports.now }
    ensures { OnOk result ((P : Plan) (o : Origin) (lives owns : Cells_of) → IsToldOf plan.now P row written counted width (map mode_of ports.now) o → Grows plan.now P draft.old draft.new (line o (Made.Fire row (shape_of shape) (at_seats plan.now (seats_at args.now first ports.now)) out width) ∷ []) (setting (map mode_of ports.now) [] lives owns ∷ [])) }
{
    match sparse_node(row, shape, written, counted, width) {
        Some(node) => add_kept(
            alloc, draft, plan, args, first, ports, node, row, shape, written, counted, out, width,
        ),
        None => add_all(
            alloc, draft, plan, args, first, ports, row, shape, written, counted, out, width,
        ),
    }
}

/// Adds a step that fires a simple node. Where ports are not filled and the node is an RBuild or an
/// RReplace, the step names those alone that are.
pub fn add_plain(
    alloc: Global,
    draft: &mut Draft,
    plan: &PlanData,
    args: &[Seat],
    first: u32,
    ports: &Gapped<Port>,
    row: Simple,
    shape: Shape,
    written: Written,
    counted: Counted,
    out: u32,
    width: u32,
) -> Result<(), NoMemory>
    requires formed { IsFormed plan.now }
    requires below { AreBelow (2 ^ 32 - first) ports.now }
    ensures { OnOk result ((P : Plan) (o : Origin) (lives owns : Cells_of) → IsToldOf plan.now P row written counted width (map mode_of ports.now) o → Grows plan.now P draft.old draft.new (line o (Made.Fire row (shape_of shape) (at_seats plan.now (seats_at args.now first ports.now)) out width) ∷ []) (setting (map mode_of ports.now) [] lives owns ∷ [])) }
{
    match ports.whole() {
        Some(all) => add_fire(
            draft, plan, args, first, all, row, shape, written, counted, out, width,
        ),
        None => add_some(
            alloc, draft, plan, args, first, ports, row, shape, written, counted, out, width,
        ),
    }
}
