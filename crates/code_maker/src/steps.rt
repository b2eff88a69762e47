//! Steps that are added, one at a time.
ghost use Rattle.std.specs.Prelude.{◌≡◌, ◌+◌, ◌-◌, ◌^◌, ◌≤◌, ◌++◌, [], ◌∷◌, true, false, if◌then◌else◌, map, length, OnOk};
ghost use Rattle.node_ops.specs.Operands.{shape_of};
ghost use Rattle.run_code.specs.Collections.{sifts_in};
ghost use Rattle.run_code.specs.Made.{Origin, Plan, line};
ghost use Rattle.run_code.specs.Steps as Made;
ghost use Rattle.run_store.specs.Stored.{Looks};
ghost use Rattle.plan_data.specs.Settings.{Cells_of, takes_all};
ghost use Rattle.plan_data.specs.Settled.{setting};
ghost use Rattle.step_code.specs.Laid.{collect_in, puts_of};
ghost use Rattle.plan_data.specs.declared.plan.PlanData.{PlanData};
ghost use Rattle.plan_data.specs.Parts.{AreBelow, IsFormed, arms_steps, mode_by, mode_of};
ghost use Rattle.code_maker.specs.Seats.{at_seat, at_seats, copied_ports, seats_at, starts_from};
ghost use Rattle.code_maker.specs.Grows.{Grows, IsRoomOf, IsToldOf};

use crate::draft::{
    Draft, add_collects, add_copied, add_looked, add_ports, add_sifts, add_starts, count_of, sifts,
};
use crate::seats::{Seat, operand};
use flow_value::{NoMemory, Shape};
use if1_graph::Simple;
use plan_data::{Handled, PlanData, Port};
use step_code::{Collect, Counted, Step, Written};

/// Adds a step that counts.
pub fn add_count(draft: &mut Draft) -> Result<(), NoMemory>
    ensures { OnOk result ((D : PlanData) (P : Plan) (o : Origin) (lives owns : Cells_of) → Grows D P draft.old draft.new (line o Made.Count ∷ []) (setting [] [] lives owns ∷ [])) }
{
    draft.steps.add(Step::Count)
}

/// Adds a step that counts the first turn of a loop, if its body comes before its first test.
pub fn add_early(draft: &mut Draft, early: bool) -> Result<(), NoMemory>
    ensures { OnOk result ((D : PlanData) (P : Plan) (o : Origin) (lives owns : Cells_of) → Grows D P draft.old draft.new (if early then line o Made.Count ∷ [] else []) (if early then setting [] [] lives owns ∷ [] else [])) }
{
    if early { add_count(draft) } else { Ok(()) }
}

/// Adds a step that fires a simple node.
pub fn add_fire(
    draft: &mut Draft,
    plan: &PlanData,
    args: &[Seat],
    first: u32,
    ports: &[Port],
    row: Simple,
    shape: Shape,
    written: Written,
    counted: Counted,
    out: u32,
    width: u32,
) -> Result<(), NoMemory>
    requires formed { IsFormed plan.now }
    requires below { AreBelow (2 ^ 32 - first) ports.now }
    ensures { OnOk result ((P : Plan) (o : Origin) (lives owns : Cells_of) → IsToldOf plan.now P row written counted width (map mode_of ports.now) o → Grows plan.now P draft.old draft.new (line o (Made.Fire row (shape_of shape) (at_seats plan.now (seats_at args.now first ports.now)) out width) ∷ []) (setting (map mode_of ports.now) [] lives owns ∷ [])) }
{
    let ins = count_of(draft.operands.len())?;
    let many = count_of(ports.len())?;
    add_ports(&mut draft.operands, plan, args, first, ports)?;
    draft.steps.add(Step::Fire {
        row,
        written,
        shape,
        ins,
        many,
        out,
        width,
        kept: u32::MAX,
        counted,
    })
}

/// Adds a step that calls a function, where the running block has so many cells and the new one so
/// many.
pub fn add_call(
    draft: &mut Draft,
    plan: &PlanData,
    args: &[Seat],
    first: u32,
    ports: &[Port],
    entry: u32,
    size: u32,
    room: u32,
    out: u32,
    width: u32,
) -> Result<(), NoMemory>
    requires formed { IsFormed plan.now }
    requires below { AreBelow (2 ^ 32 - first) ports.now }
    ensures { OnOk result ((P : Plan) (o : Origin) (lives owns : Cells_of) → IsRoomOf plan.now P room o → Grows plan.now P draft.old draft.new (line o (Made.Call entry size (at_seats plan.now (seats_at args.now first ports.now)) out width) ∷ []) (setting (map mode_of ports.now) [] lives owns ∷ [])) }
{
    let start = count_of(draft.operands.len())?;
    let many = count_of(ports.len())?;
    add_ports(&mut draft.operands, plan, args, first, ports)?;
    draft.steps.add(Step::Call {
        entry,
        size,
        room,
        args: start,
        many,
        out,
        width,
    })
}

/// Adds a step that leaves the block.
pub fn add_return(
    draft: &mut Draft,
    plan: &PlanData,
    args: &[Seat],
    first: u32,
    ports: &[Port],
) -> Result<(), NoMemory>
    requires formed { IsFormed plan.now }
    requires below { AreBelow (2 ^ 32 - first) ports.now }
    ensures { OnOk result ((P : Plan) (o : Origin) (lives owns : Cells_of) → Grows plan.now P draft.old draft.new (line o (Made.Return (at_seats plan.now (seats_at args.now first ports.now))) ∷ []) (setting (map mode_of ports.now) [] lives owns ∷ [])) }
{
    let froms = count_of(draft.operands.len())?;
    let many = count_of(ports.len())?;
    add_ports(&mut draft.operands, plan, args, first, ports)?;
    draft.steps.add(Step::Return { froms, many })
}

/// Adds a step that brings what fills ports to cells.
pub fn add_move(
    draft: &mut Draft,
    plan: &PlanData,
    args: &[Seat],
    first: u32,
    ports: &[Port],
    out: u32,
    width: u32,
    next: u32,
) -> Result<(), NoMemory>
    requires formed { IsFormed plan.now }
    requires below { AreBelow (2 ^ 32 - first) ports.now }
    ensures { OnOk result ((P : Plan) (o : Origin) (lives owns : Cells_of) → Grows plan.now P draft.old draft.new (line o (Made.Move (at_seats plan.now (seats_at args.now first ports.now)) out width next) ∷ []) (setting (map mode_of ports.now) [] lives owns ∷ [])) }
{
    let froms = count_of(draft.operands.len())?;
    let many = count_of(ports.len())?;
    add_ports(&mut draft.operands, plan, args, first, ports)?;
    draft.steps.add(Step::Move {
        froms,
        many,
        out,
        width,
        next,
    })
}

/// Adds a step that brings what fills the ports that are copied, so many, to cells.
pub fn add_copies(
    draft: &mut Draft,
    plan: &PlanData,
    args: &[Seat],
    first: u32,
    ports: &[Port],
    many: u32,
    out: u32,
    next: u32,
) -> Result<(), NoMemory>
    requires formed { IsFormed plan.now }
    requires below { AreBelow (2 ^ 32 - first) ports.now }
    requires many { many ≡ length (copied_ports ports.now) }
    ensures { OnOk result ((P : Plan) (o : Origin) (lives owns : Cells_of) → Grows plan.now P draft.old draft.new (line o (Made.Move (at_seats plan.now (seats_at args.now first (copied_ports ports.now))) out many next) ∷ []) (setting (map mode_of (copied_ports ports.now)) [] lives owns ∷ [])) }
{
    let froms = count_of(draft.operands.len())?;
    add_copied(&mut draft.operands, plan, args, first, ports)?;
    draft.steps.add(Step::Move {
        froms,
        many,
        out,
        width: many,
        next,
    })
}

/// Adds a step that goes on at one of several graphs, the first of which begins at this place.
pub fn add_branch(
    draft: &mut Draft,
    plan: &PlanData,
    selector: Seat,
    arms: &[u32],
    begin: u32,
    out: u32,
    width: u32,
    next: u32,
) -> Result<(), NoMemory>
    requires formed { IsFormed plan.now }
    requires steps { begin + arms_steps plan.now arms.now ≤ u32.MAX }
    ensures { OnOk result ((P : Plan) (o : Origin) (lives owns : Cells_of) → Grows plan.now P draft.old draft.new (line o (Made.Branch (at_seat plan.now selector) (starts_from plan.now arms.now begin) out width next) ∷ []) (setting (Looks ∷ []) [] lives owns ∷ [])) }
{
    let targets = count_of(draft.targets.len())?;
    let many = count_of(arms.len())?;
    add_starts(&mut draft.targets, plan, arms, begin)?;
    draft.steps.add(Step::Branch {
        selector: operand(plan, Handled::Looks, selector),
        targets,
        many,
        out,
        width,
        next,
    })
}

/// Adds a step that brings the content of a union to a cell and goes on at its tag's graph.
pub fn add_tag(
    draft: &mut Draft,
    plan: &PlanData,
    union: Seat,
    handled: Handled,
    arms: &[u32],
    begin: u32,
    content: u32,
    out: u32,
    width: u32,
    next: u32,
) -> Result<(), NoMemory>
    requires formed { IsFormed plan.now }
    requires steps { begin + arms_steps plan.now arms.now ≤ u32.MAX }
    ensures { OnOk result ((P : Plan) (o : Origin) (lives owns : Cells_of) → Grows plan.now P draft.old draft.new (line o (Made.Tag (at_seat plan.now union) (starts_from plan.now arms.now begin) content out width next) ∷ []) (setting (mode_by handled ∷ []) [] lives owns ∷ [])) }
{
    let targets = count_of(draft.targets.len())?;
    let many = count_of(arms.len())?;
    add_starts(&mut draft.targets, plan, arms, begin)?;
    draft.steps.add(Step::Tag {
        union: operand(plan, handled, union),
        targets,
        many,
        content,
        keeps: true,
        out,
        width,
        next,
    })
}

/// Adds a step that begins a turn, or leaves a loop.
pub fn add_test(
    draft: &mut Draft,
    plan: &PlanData,
    test: Seat,
    turn: u32,
    leave: u32,
    out: u32,
    width: u32,
    next: u32,
) -> Result<(), NoMemory>
    requires { IsFormed plan.now }
    ensures { OnOk result ((P : Plan) (o : Origin) (lives owns : Cells_of) → Grows plan.now P draft.old draft.new (line o (Made.Test (at_seat plan.now test) turn leave out width next) ∷ []) (setting (Looks ∷ []) [] lives owns ∷ [])) }
{
    draft.steps.add(Step::Test {
        test: operand(plan, Handled::Looks, test),
        turn,
        leave,
        out,
        width,
        next,
    })
}

/// Adds a step that keeps the first loop values, and begins what is sifted of collections with them.
pub fn add_begin(
    draft: &mut Draft,
    plan: &PlanData,
    collects: &[Collect],
    args: &[Seat],
    first: u32,
    ports: &[Port],
    out: u32,
    next: u32,
) -> Result<(), NoMemory>
    requires formed { IsFormed plan.now }
    requires below { AreBelow (2 ^ 32 - first) ports.now }
    ensures { OnOk result ((P : Plan) (o : Origin) (lives owns : Cells_of) → Grows plan.now P draft.old draft.new (line o (Made.Keep true (sifts_in (map collect_in collects.now)) (at_seats plan.now (seats_at args.now first ports.now)) out next) ∷ []) (setting (map mode_of ports.now) [] lives owns ∷ [])) }
{
    let froms = count_of(draft.operands.len())?;
    let many = count_of(ports.len())?;
    let start = count_of(draft.collects.len())?;
    let count = count_of(sifts(collects))?;
    add_ports(&mut draft.operands, plan, args, first, ports)?;
    add_sifts(&mut draft.collects, collects)?;
    draft.steps.add(Step::Keep {
        begins: true,
        collects: start,
        count,
        froms,
        many,
        out,
        next,
    })
}

/// Adds a step that keeps loop values, and puts them to what is sifted of collections.
pub fn add_keep(
    draft: &mut Draft,
    plan: &PlanData,
    collects: &[Collect],
    args: &[Seat],
    first: u32,
    ports: &[Port],
    out: u32,
    next: u32,
) -> Result<(), NoMemory>
    requires formed { IsFormed plan.now }
    requires below { AreBelow (2 ^ 32 - first) ports.now }
    ensures { OnOk result ((P : Plan) (o : Origin) (lives owns : Cells_of) → Grows plan.now P draft.old draft.new (line o (Made.Keep false (sifts_in (map collect_in collects.now)) (at_seats plan.now (seats_at args.now first ports.now)) out next) ∷ []) (setting (map mode_of ports.now ++ takes_all (length (sifts_in (map collect_in collects.now)))) [] lives owns ∷ [])) }
{
    let froms = count_of(draft.operands.len())?;
    let many = count_of(ports.len())?;
    let start = count_of(draft.collects.len())?;
    let count = count_of(sifts(collects))?;
    add_ports(&mut draft.operands, plan, args, first, ports)?;
    add_sifts(&mut draft.collects, collects)?;
    draft.steps.add(Step::Keep {
        begins: false,
        collects: start,
        count,
        froms,
        many,
        out,
        next,
    })
}

/// Adds a step that brings multiples to cells, with empty collections and 0 behind them.
pub fn add_spread(
    draft: &mut Draft,
    plan: &PlanData,
    collects: &[Collect],
    args: &[Seat],
    first: u32,
    ports: &[Port],
    to: u32,
    turns: u32,
    out: u32,
    width: u32,
    next: u32,
) -> Result<(), NoMemory>
    requires formed { IsFormed plan.now }
    requires below { AreBelow (2 ^ 32 - first) ports.now }
    ensures { OnOk result ((P : Plan) (o : Origin) (lives owns : Cells_of) → Grows plan.now P draft.old draft.new (line o (Made.Spread (at_seats plan.now (seats_at args.now first ports.now)) (map collect_in collects.now) to turns out width next) ∷ []) (setting (map mode_of ports.now) [] lives owns ∷ [])) }
{
    let froms = count_of(draft.operands.len())?;
    let many = count_of(ports.len())?;
    let start = count_of(draft.collects.len())?;
    let count = count_of(collects.len())?;
    add_ports(&mut draft.operands, plan, args, first, ports)?;
    add_collects(&mut draft.collects, collects)?;
    draft.steps.add(Step::Spread {
        froms,
        many,
        collects: start,
        count,
        to,
        turns,
        out,
        width,
        next,
    })
}

/// Adds a step that begins an iteration, or leaves a ForAll of so many multiples from a cell on.
pub fn add_each(
    draft: &mut Draft,
    many: u32,
    from: u32,
    count: u32,
    turn: u32,
    leave: u32,
) -> Result<(), NoMemory>
    requires { from + many ≤ u32.MAX }
    ensures { OnOk result ((D : PlanData) (P : Plan) (o : Origin) (lives owns : Cells_of) → IsFormed D → Grows D P draft.old draft.new (line o (Made.Each many from count turn leave) ∷ []) (setting [] [] lives owns ∷ [])) }
{
    let multiples = count_of(draft.operands.len())?;
    add_looked(&mut draft.operands, from, many)?;
    draft.steps.add(Step::Each {
        multiples,
        many,
        from,
        count,
        kept: u32::MAX,
        turn,
        leave,
    })
}

/// Adds a step that puts what fills ports to collections.
pub fn add_put(
    draft: &mut Draft,
    plan: &PlanData,
    collects: &[Collect],
    args: &[Seat],
    first: u32,
    ports: &[Port],
    out: u32,
    next: u32,
) -> Result<(), NoMemory>
    requires formed { IsFormed plan.now }
    requires below { AreBelow (2 ^ 32 - first) ports.now }
    ensures { OnOk result ((P : Plan) (o : Origin) (lives owns : Cells_of) → Grows plan.now P draft.old draft.new (line o (Made.Add (map collect_in collects.now) (at_seats plan.now (seats_at args.now first ports.now)) out next) ∷ []) (setting (map mode_of ports.now ++ takes_all (length collects.now)) (map puts_of collects.now) lives owns ∷ [])) }
{
    let froms = count_of(draft.operands.len())?;
    let many = count_of(ports.len())?;
    let start = count_of(draft.collects.len())?;
    let count = count_of(collects.len())?;
    add_ports(&mut draft.operands, plan, args, first, ports)?;
    add_collects(&mut draft.collects, collects)?;
    draft.steps.add(Step::Add {
        collects: start,
        count,
        froms,
        many,
        out,
        next,
    })
}
