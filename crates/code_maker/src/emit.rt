//! Graphs are made into code, one node behind another.
ghost use Rattle.std.specs.Prelude.{◌≡◌, ℕ, suc, ◌+◌, ◌-◌, ◌^◌, ◌<◌, ◌≤◌, max, [], ◌∷◌, Bool, true, false, if◌then◌else◌, map, length, OnOk};
ghost use Rattle.graph_meaning.specs.Forms as Form;
ghost use Rattle.graph_meaning.specs.Demand.{Whole};
ghost use Rattle.run_store.specs.Stored.{Mode, Looks, Takes};
ghost use Rattle.plan_data.specs.Parts.{AreBelow, AreColumnsBelow, DoColumnsFit, IsFormed, IsWhole, arms_steps, extent_in, for_all_cells, first_given, gives_by, graph_collects, graph_nodes, graph_refolded, graph_results, greatest_of, kind_of, loop_cells, loop_steps, mode_by, nodes_cells, nodes_steps, own_copies, picks_of, count_true, size_in, work_cells, work_steps};
ghost use Rattle.code_maker.specs.Makes.{ArmMade, ArmsMade, FirstMade, GraphMade, NodeMade, PartsMade, RowsMade, TurnsMade, loop_work, one_if};

use crate::draft::{Draft, count_of};
use crate::seats::{
    Seat, copied, first_seat, head_of, own_seats, with_cells, with_content, with_stand,
};
use crate::sparse::add_plain;
use crate::steps::{
    add_begin, add_branch, add_call, add_copies, add_count, add_each, add_early, add_keep,
    add_move, add_put, add_spread, add_tag, add_test,
};
use flow_value::NoMemory;
use plan_data::{
    Handled, LoopParts, PlanData, PlanNode, Port, Work, collects_in, nodes_in, number_at,
    refolded_in, results_in,
};
use std::alloc::Global;

/// How many steps alternatives take.
fn arms_steps(plan: &PlanData, arms: &[u32]) -> u32
    requires { arms_steps plan.now arms.now ≤ u32.MAX }
    ensures { result ≡ arms_steps plan.now arms.now }
{
    let mut steps = 0;
    for arm in arms {
        steps += number_at(plan.sizes.as_slice(), *arm) + 1;
    }
    steps
}

/// How many steps a loop takes, without its count and copies.
fn loop_steps(plan: &PlanData, parts: LoopParts) -> u32
    requires { loop_steps plan.now parts ≤ u32.MAX }
    ensures { result ≡ loop_steps plan.now parts }
{
    let sizes = plan.sizes.as_slice();
    let last = refolded_in(plan.graphs.as_slice(), parts.returns);
    number_at(sizes, parts.init)
        + number_at(sizes, parts.body)
        + number_at(sizes, parts.test)
        + number_at(sizes, last)
        + 4
}

/// How many steps a node takes.
fn work_steps(plan: &PlanData, work: &Work) -> u32
    requires { work_steps plan.now work.now ≤ u32.MAX }
    ensures { result ≡ work_steps plan.now work.now }
{
    let sizes = plan.sizes.as_slice();
    match work {
        Work::Plain(..) | Work::Call(_) => 1,
        Work::Select(selector, arms) => {
            number_at(sizes, *selector) + arms_steps(plan, arms.as_slice()) + 3
        }
        Work::TagCase(arms) => arms_steps(plan, arms.as_slice()) + 3,
        Work::LoopA(parts) => loop_steps(plan, *parts) + 3,
        Work::LoopB(parts) => loop_steps(plan, *parts) + 2,
        Work::ForAll(generator, body, returns, _) => {
            let last = refolded_in(plan.graphs.as_slice(), *returns);
            number_at(sizes, *generator) + number_at(sizes, *body) + number_at(sizes, last) + 6
        }
    }
}

/// How many steps stand before a loop's first turn.
fn one_if(early: bool) -> u32
    ensures { result ≡ one_if early }
{
    if early { 1 } else { 0 }
}

/// Where a loop goes on from its first loop values.
fn starts_at(early: bool, turn: u32, test: u32) -> u32
    ensures { result ≡ (if early then turn else test) }
{
    if early { turn } else { test }
}

/// What the parts of a TagCase are given of the union.
fn first_given(ports: &[Port]) -> Handled
    ensures { mode_by result ≡ first_given ports.now }
{
    match ports {
        [] => Handled::Looks,
        [port, ..] => match port.handled {
            Handled::Looks => Handled::Looks,
            _ => Handled::Takes,
        },
    }
}

/// Makes a graph, and the graphs inside it down to so many levels, in a block of so many cells: on
/// these inputs, from a place and a cell on.
#[cycle(emit)]
pub fn emit_graph(
    alloc: Global,
    plan: &PlanData,
    room: u32,
    levels: u32,
    args: &[Seat],
    graph: u32,
    place: u32,
    lo: u32,
    draft: &mut Draft,
) -> Result<(), NoMemory>
    requires formed { IsFormed plan.now }
    requires steps { place + size_in plan.now graph ≤ u32.MAX }
    requires cells { lo + extent_in plan.now graph ≤ u32.MAX }
    ensures { OnOk result (GraphMade plan.now room levels args.now graph place lo draft.old draft.new) }
{
    if levels == 0 {
        return Ok(());
    }
    let nodes = nodes_in(plan.graphs.as_slice(), graph);
    let mut here = place;
    let mut cell = lo;
    for node in nodes {
        emit_node(
            alloc,
            plan,
            room,
            levels - 1,
            args,
            lo,
            node,
            here,
            cell,
            draft,
        )?;
        here += work_steps(plan, &node.work);
        cell += node.width;
    }
    Ok(())
}

/// Makes a node of a graph whose first node has its outputs from a cell on.
#[cycle(emit)]
fn emit_node(
    alloc: Global,
    plan: &PlanData,
    room: u32,
    levels: u32,
    args: &[Seat],
    first: u32,
    node: &PlanNode,
    place: u32,
    lo: u32,
    draft: &mut Draft,
) -> Result<(), NoMemory>
    requires formed { IsFormed plan.now }
    requires below { AreBelow (2 ^ 32 - first) node.now.ins }
    requires columns { DoColumnsFit plan.now node.now.work }
    requires steps { place + work_steps plan.now node.now.work ≤ u32.MAX }
    requires cells { lo + (node.now.width + (own_copies node.now.work node.now.ins + work_cells plan.now node.now.work)) ≤ u32.MAX }
    ensures { OnOk result (NodeMade plan.now room levels args.now first node.now place lo draft.old draft.new) }
{
    match &node.work {
        Work::Plain(row, shape, written, counted) => add_plain(
            alloc, draft, plan, args, first, &node.ins, *row, *shape, *written, *counted, lo,
            node.width,
        ),
        Work::Call(function) => {
            let entry = number_at(plan.entries.as_slice(), *function);
            let inputs = number_at(plan.params.as_slice(), *function);
            let new = inputs + number_at(plan.extents.as_slice(), *function);
            let listed = node.ins.listed(alloc)?;
            let ports = listed.as_slice();
            add_call(
                draft, plan, args, first, ports, entry, room, new, lo, node.width,
            )
        }
        _ => emit_whole(
            alloc, plan, room, levels, args, first, node, place, lo, draft,
        ),
    }
}

/// Makes a compound node: its count, its copies and its parts.
#[cycle(emit)]
fn emit_whole(
    alloc: Global,
    plan: &PlanData,
    room: u32,
    levels: u32,
    args: &[Seat],
    first: u32,
    node: &PlanNode,
    place: u32,
    lo: u32,
    draft: &mut Draft,
) -> Result<(), NoMemory>
    requires formed { IsFormed plan.now }
    requires whole { IsWhole node.now.work }
    requires below { AreBelow (2 ^ 32 - first) node.now.ins }
    requires columns { DoColumnsFit plan.now node.now.work }
    requires steps { place + work_steps plan.now node.now.work ≤ u32.MAX }
    requires cells { lo + (node.now.width + (count_true (map picks_of node.now.ins) + work_cells plan.now node.now.work)) ≤ u32.MAX }
    ensures { OnOk result (NodeMade plan.now room levels args.now first node.now place lo draft.old draft.new) }
{
    let listed = node.ins.listed(alloc)?;
    let ports = listed.as_slice();
    let many = copied(ports) as u32;
    let up = lo + node.width;
    add_count(draft)?;
    add_copies(draft, plan, args, first, ports, many, up, place + 2)?;
    let own = own_seats(alloc, args, first, ports, up)?;
    emit_parts(
        alloc,
        plan,
        room,
        levels,
        first_given(ports),
        own.as_slice(),
        &node.work,
        place + 2,
        node.width,
        place + work_steps(plan, &node.work),
        lo,
        up + many,
        draft,
    )
}

/// Makes the parts of a compound node, whose outputs stand in so many cells from one on; behind it
/// the machine goes on at this place.
#[cycle(emit)]
fn emit_parts(
    alloc: Global,
    plan: &PlanData,
    room: u32,
    levels: u32,
    union: Handled,
    own: &[Seat],
    work: &Work,
    place: u32,
    width: u32,
    next: u32,
    lo: u32,
    mid: u32,
    draft: &mut Draft,
) -> Result<(), NoMemory>
    requires formed { IsFormed plan.now }
    requires columns { DoColumnsFit plan.now work.now }
    requires steps { place + work_steps plan.now work.now ≤ 2 + u32.MAX }
    requires cells { mid + work_cells plan.now work.now ≤ u32.MAX }
    ensures { OnOk result (PartsMade plan.now room levels (mode_by union) own.now (kind_of work.now width) place width next lo mid draft.old draft.new) }
{
    match work {
        Work::Plain(..) | Work::Call(_) => Ok(()),
        Work::Select(selector, arms) => {
            let chosen = arms.as_slice();
            emit_select(
                alloc, plan, room, levels, own, *selector, chosen, place, width, next, lo, mid,
                draft,
            )
        }
        Work::TagCase(arms) => {
            let tagged = arms.as_slice();
            emit_tag(
                alloc, plan, room, levels, union, own, tagged, place, width, next, lo, mid, draft,
            )
        }
        Work::LoopA(parts) => emit_loop(
            alloc, plan, room, levels, true, own, *parts, place, width, next, lo, mid, draft,
        ),
        Work::LoopB(parts) => emit_loop(
            alloc, plan, room, levels, false, own, *parts, place, width, next, lo, mid, draft,
        ),
        Work::ForAll(generator, body, returns, _) => emit_for_all(
            alloc, plan, room, levels, own, *generator, *body, *returns, place, width, next, lo,
            mid, draft,
        ),
    }
}

/// Makes the parts of a Select.
#[cycle(emit)]
fn emit_select(
    alloc: Global,
    plan: &PlanData,
    room: u32,
    levels: u32,
    own: &[Seat],
    selector: u32,
    arms: &[u32],
    place: u32,
    width: u32,
    next: u32,
    lo: u32,
    mid: u32,
    draft: &mut Draft,
) -> Result<(), NoMemory>
    requires formed { IsFormed plan.now }
    requires steps { place + (suc (size_in plan.now selector) + arms_steps plan.now arms.now) ≤ u32.MAX }
    requires cells { mid + max (extent_in plan.now selector) (greatest_of plan.now arms.now) ≤ u32.MAX }
    ensures { OnOk result ((m : Mode) → PartsMade plan.now room levels m own.now (Whole (Form.Select selector arms.now width)) place width next lo mid draft.old draft.new) }
{
    emit_graph(alloc, plan, room, levels, own, selector, place, mid, draft)?;
    let ports = results_in(plan.graphs.as_slice(), selector);
    let chosen = first_seat(own, mid, ports);
    let begin = place + number_at(plan.sizes.as_slice(), selector) + 1;
    add_branch(draft, plan, chosen, arms, begin, lo, width, next)?;
    emit_arms(
        alloc, plan, room, levels, own, arms, begin, width, next, lo, mid, draft,
    )
}

/// Makes the parts of a TagCase.
#[cycle(emit)]
fn emit_tag(
    alloc: Global,
    plan: &PlanData,
    room: u32,
    levels: u32,
    union: Handled,
    own: &[Seat],
    arms: &[u32],
    place: u32,
    width: u32,
    next: u32,
    lo: u32,
    mid: u32,
    draft: &mut Draft,
) -> Result<(), NoMemory>
    requires formed { IsFormed plan.now }
    requires steps { place + suc (arms_steps plan.now arms.now) ≤ u32.MAX }
    requires cells { mid + suc (greatest_of plan.now arms.now) ≤ u32.MAX }
    ensures { OnOk result (PartsMade plan.now room levels (mode_by union) own.now (Whole (Form.TagCase arms.now width)) place width next lo mid draft.old draft.new) }
{
    let from = head_of(own);
    add_tag(
        draft,
        plan,
        from,
        union,
        arms,
        place + 1,
        mid,
        lo,
        width,
        next,
    )?;
    let inputs = with_content(alloc, own, mid)?;
    emit_arms(
        alloc,
        plan,
        room,
        levels,
        inputs.as_slice(),
        arms,
        place + 1,
        width,
        next,
        lo,
        mid + 1,
        draft,
    )
}

/// Makes arms, whose cells begin at `up`.
#[cycle(emit)]
fn emit_arms(
    alloc: Global,
    plan: &PlanData,
    room: u32,
    levels: u32,
    args: &[Seat],
    arms: &[u32],
    place: u32,
    width: u32,
    next: u32,
    lo: u32,
    up: u32,
    draft: &mut Draft,
) -> Result<(), NoMemory>
    requires formed { IsFormed plan.now }
    requires steps { place + arms_steps plan.now arms.now ≤ u32.MAX }
    requires cells { up + greatest_of plan.now arms.now ≤ u32.MAX }
    ensures { OnOk result (ArmsMade plan.now room levels args.now arms.now place width next lo up draft.old draft.new) }
{
    let mut here = place;
    for arm in arms {
        emit_arm(
            alloc, plan, room, levels, args, *arm, here, width, next, lo, up, draft,
        )?;
        here += number_at(plan.sizes.as_slice(), *arm) + 1;
    }
    Ok(())
}

/// Makes a graph, and a step that brings its results to the outputs of a node.
#[cycle(emit)]
fn emit_arm(
    alloc: Global,
    plan: &PlanData,
    room: u32,
    levels: u32,
    args: &[Seat],
    graph: u32,
    place: u32,
    width: u32,
    next: u32,
    lo: u32,
    up: u32,
    draft: &mut Draft,
) -> Result<(), NoMemory>
    requires formed { IsFormed plan.now }
    requires steps { place + size_in plan.now graph ≤ u32.MAX }
    requires cells { up + extent_in plan.now graph ≤ u32.MAX }
    ensures { OnOk result (ArmMade plan.now room levels args.now graph place width next lo up draft.old draft.new) }
{
    emit_graph(alloc, plan, room, levels, args, graph, place, up, draft)?;
    let ports = results_in(plan.graphs.as_slice(), graph);
    add_move(draft, plan, args, up, ports, lo, width, next)
}

/// Makes the parts of a loop, whose body comes before its first test or after it.
#[cycle(emit)]
fn emit_loop(
    alloc: Global,
    plan: &PlanData,
    room: u32,
    levels: u32,
    early: bool,
    own: &[Seat],
    parts: LoopParts,
    place: u32,
    width: u32,
    next: u32,
    lo: u32,
    mid: u32,
    draft: &mut Draft,
) -> Result<(), NoMemory>
    requires formed { IsFormed plan.now }
    requires columns { AreColumnsBelow (length (graph_results plan.now parts.init)) (graph_collects plan.now parts.returns) }
    requires steps { place + (one_if early + loop_steps plan.now parts) ≤ u32.MAX }
    requires cells { mid + loop_cells plan.now parts ≤ u32.MAX }
    ensures { OnOk result ((m : Mode) → PartsMade plan.now room levels m own.now (kind_of (loop_work early parts) width) place width next lo mid draft.old draft.new) }
{
    let graphs = plan.graphs.as_slice();
    let sizes = plan.sizes.as_slice();
    let collects = collects_in(graphs, parts.returns);
    let values = results_in(graphs, parts.init).len() as u32;
    let begun = place + number_at(sizes, parts.init) + 1;
    let turn = begun + one_if(early);
    let tests = turn + number_at(sizes, parts.body) + 1;
    let leave = tests + number_at(sizes, parts.test) + 1;
    let starts = starts_at(early, begun, tests);
    let top = mid + values + collects.len() as u32;
    emit_first(
        alloc, plan, room, levels, own, parts, place, starts, mid, draft,
    )?;
    add_early(draft, early)?;
    let lent = with_cells(alloc, own, mid, values)?;
    let turned = lent.as_slice();
    emit_turns(
        alloc, plan, room, levels, turned, parts, turn, tests, leave, width, next, lo, mid, top,
        draft,
    )?;
    let all = with_stand(alloc, own, collects, mid + values, mid)?;
    let folds = all.as_slice();
    let last = refolded_in(graphs, parts.returns);
    emit_arm(
        alloc, plan, room, levels, folds, last, leave, width, next, lo, top, draft,
    )
}

/// Makes the initialization of a loop, and a step that keeps its first loop values.
#[cycle(emit)]
fn emit_first(
    alloc: Global,
    plan: &PlanData,
    room: u32,
    levels: u32,
    own: &[Seat],
    parts: LoopParts,
    place: u32,
    starts: u32,
    mid: u32,
    draft: &mut Draft,
) -> Result<(), NoMemory>
    requires formed { IsFormed plan.now }
    requires steps { place + size_in plan.now parts.init ≤ u32.MAX }
    requires cells { mid + extent_in plan.now parts.init ≤ u32.MAX }
    ensures { OnOk result (FirstMade plan.now room levels own.now parts place starts mid draft.old draft.new) }
{
    emit_graph(
        alloc, plan, room, levels, own, parts.init, place, mid, draft,
    )?;
    let graphs = plan.graphs.as_slice();
    let collects = collects_in(graphs, parts.returns);
    let ports = results_in(graphs, parts.init);
    add_begin(draft, plan, collects, own, mid, ports, mid, starts)
}

/// Makes the body of a loop and its test, on these inputs and loop values.
#[cycle(emit)]
fn emit_turns(
    alloc: Global,
    plan: &PlanData,
    room: u32,
    levels: u32,
    lent: &[Seat],
    parts: LoopParts,
    turn: u32,
    tests: u32,
    leave: u32,
    width: u32,
    next: u32,
    lo: u32,
    mid: u32,
    top: u32,
    draft: &mut Draft,
) -> Result<(), NoMemory>
    requires formed { IsFormed plan.now }
    requires body { turn + size_in plan.now parts.body ≤ u32.MAX }
    requires test { tests + size_in plan.now parts.test ≤ u32.MAX }
    requires body_cells { top + extent_in plan.now parts.body ≤ u32.MAX }
    requires test_cells { top + extent_in plan.now parts.test ≤ u32.MAX }
    ensures { OnOk result (TurnsMade plan.now room levels lent.now parts turn tests leave width next lo mid top draft.old draft.new) }
{
    let graphs = plan.graphs.as_slice();
    let collects = collects_in(graphs, parts.returns);
    emit_graph(
        alloc, plan, room, levels, lent, parts.body, turn, top, draft,
    )?;
    let values = results_in(graphs, parts.body);
    add_keep(draft, plan, collects, lent, top, values, mid, tests)?;
    emit_graph(
        alloc, plan, room, levels, lent, parts.test, tests, top, draft,
    )?;
    let told = first_seat(lent, top, results_in(graphs, parts.test));
    add_test(draft, plan, told, turn, leave, lo, width, next)
}

/// Makes the parts of a ForAll.
#[cycle(emit)]
fn emit_for_all(
    alloc: Global,
    plan: &PlanData,
    room: u32,
    levels: u32,
    own: &[Seat],
    generator: u32,
    body: u32,
    returns: u32,
    place: u32,
    width: u32,
    next: u32,
    lo: u32,
    mid: u32,
    draft: &mut Draft,
) -> Result<(), NoMemory>
    requires formed { IsFormed plan.now }
    requires steps { place + (suc (size_in plan.now generator) + (suc (size_in plan.now body) + suc (suc (size_in plan.now (graph_refolded plan.now returns))))) ≤ u32.MAX }
    requires cells { mid + for_all_cells plan.now generator body returns ≤ u32.MAX }
    ensures { OnOk result ((m : Mode) (given : ℕ) → PartsMade plan.now room levels m own.now (Whole (Form.ForAll generator body returns given width)) place width next lo mid draft.old draft.new) }
{
    let graphs = plan.graphs.as_slice();
    let sizes = plan.sizes.as_slice();
    let collects = collects_in(graphs, returns);
    let ports = results_in(graphs, generator);
    let lists = ports.len() as u32;
    let many = collects.len() as u32;
    let turn = place + number_at(sizes, generator) + 1;
    let turns = turn + number_at(sizes, body) + 1;
    let top = mid + lists + many;
    emit_graph(alloc, plan, room, levels, own, generator, place, mid, draft)?;
    add_spread(
        draft, plan, collects, own, mid, ports, mid, turns, lo, width, next,
    )?;
    let into = mid + lists;
    let up = top + 1 + lists;
    let leave = turns + 1;
    let lent = with_cells(alloc, own, top + 1, lists)?;
    let turned = lent.as_slice();
    emit_rows(
        alloc, plan, room, levels, turned, body, returns, turn, turns, into, up, draft,
    )?;
    add_each(draft, lists, mid, top, turn, leave)?;
    let listed = with_cells(alloc, own, mid, lists)?;
    let all = with_cells(alloc, listed.as_slice(), into, many)?;
    let folds = all.as_slice();
    let last = refolded_in(graphs, returns);
    emit_arm(
        alloc, plan, room, levels, folds, last, leave, width, next, lo, top, draft,
    )
}

/// Makes the body of a ForAll, and a step that puts its results to collections from a cell on.
#[cycle(emit)]
fn emit_rows(
    alloc: Global,
    plan: &PlanData,
    room: u32,
    levels: u32,
    lent: &[Seat],
    body: u32,
    returns: u32,
    place: u32,
    turns: u32,
    into: u32,
    up: u32,
    draft: &mut Draft,
) -> Result<(), NoMemory>
    requires formed { IsFormed plan.now }
    requires steps { place + size_in plan.now body ≤ u32.MAX }
    requires cells { up + extent_in plan.now body ≤ u32.MAX }
    ensures { OnOk result (RowsMade plan.now room levels lent.now body returns place turns into up draft.old draft.new) }
{
    emit_graph(alloc, plan, room, levels, lent, body, place, up, draft)?;
    let graphs = plan.graphs.as_slice();
    let collects = collects_in(graphs, returns);
    let ports = results_in(graphs, body);
    add_put(draft, plan, collects, lent, up, ports, into, turns)
}
