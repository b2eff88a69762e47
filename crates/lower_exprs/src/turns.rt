//! The names and the collected values of `for initial`.
ghost use Rattle.std.specs.Prelude.{◌≡◌, ◌++◌, ◌∷◌, [], suc, List, drop, map, slice_set, Some, IfOk, OnOk};
ghost use Rattle.type_table.specs.declared.form.Form.{Form};
ghost use Rattle.lowering.specs.declared.feed.Wire.{Wire};
ghost use Rattle.lowering.specs.Feeds.{into};
ghost use Rattle.lowering.specs.Operations.{Lowers, wire_at};
ghost use Rattle.lowering.specs.Loops.{many, own_inputs, loop_name, loop_kind, loop_lowered, collected, renew, renew_one, types};
ghost use Rattle.lowering.specs.Phrases.{phrase};
ghost use Rattle.lowered_data.specs.declared.made.Made.{Made};
ghost use Rattle.lowered_data.specs.States.{IsMade};
ghost use Rattle.lower_nodes.specs.Placing.{IsPlaced};
ghost use Rattle.lower_exprs.specs.Phrased.{phrases};
ghost use Rattle.lower_exprs.specs.Turned.{kept, place_at, next_after, StandIn};

use flow_value::{NoMemory, Seq};
use if1_graph::Compound;
use lower_nodes::{Bound, Placed, many_inputs, one, one_more, returns_part, types_of, wire_at};
use lowered_data::{Made, Names, carried_ports, copy_wire};
use lowering::{Carried, Wire};
use std::alloc::Global;
use typed_tree::{Turns, TypedExpr, TypedKind};

/// The level of which an expression is the name, where it is one.
pub fn name_of(e: &TypedExpr) -> Option<u32>
    ensures { (forms : List Form) → result ≡ (phrase forms e.now).name }
{
    match &e.kind {
        TypedKind::Value(level) => Some(*level),
        _ => None,
    }
}

/// The place among so many loop names of a name, where so many names stand around the loop.
pub fn loop_name(around: usize, count: usize, name: Option<u32>) -> Option<usize>
    ensures { result ≡ loop_name around count name }
{
    match name {
        Some(level) => inner_name(around, count, level as usize),
        None => None,
    }
}

/// The place among so many loop names of the name of a level.
fn inner_name(around: usize, count: usize, level: usize) -> Option<usize>
    ensures { result ≡ loop_name around count (Some level) }
{
    if around > level {
        return None;
    }
    if level - around < count {
        Some(level - around)
    } else {
        None
    }
}

/// The names from a level on.
pub fn names_from(alloc: Global, names: &Names, from: usize) -> Result<Seq<Wire>, NoMemory>
    ensures { IfOk result (λ ws. ws ≡ drop from names.now.here) }
{
    let mut wires = Seq::new(alloc);
    for level in from..names.len() {
        let Some(w) = names.find(alloc, level)? else {
            unreachable!()
        };
        wires.add(w)?;
    }
    Ok(wires)
}

/// A loop name after a definition of a turn.
fn renew_one(
    alloc: Global,
    wires: &mut Seq<Wire>,
    renewed: Option<u32>,
    w: &Wire,
) -> Result<(), NoMemory>
    ensures { OnOk result (wires.new ≡ renew_one renewed w.now wires.old) }
{
    match renewed {
        Some(place) => renew_at(alloc, wires, place as usize, w),
        None => Ok(()),
    }
}

/// A loop name after the definition that renews it.
fn renew_at(alloc: Global, wires: &mut Seq<Wire>, place: usize, w: &Wire) -> Result<(), NoMemory>
    ensures { OnOk result (wires.new ≡ slice_set wires.old place w.now) }
{
    let copy = copy_wire(alloc, w)?;
    if place < wires.len() {
        wires.set(place, copy);
    }
    Ok(())
}

/// The loop names after a turn: from its last definition to the first, so that the first one counts.
pub fn renew(
    alloc: Global,
    renewed: &[Option<u32>],
    later: &[Wire],
    own: Seq<Wire>,
) -> Result<Seq<Wire>, NoMemory>
    ensures { IfOk result (λ ws. ws ≡ renew renewed.now later.now own) }
{
    let mut wires = own;
    let mut left = renewed.len().min(later.len());
    while left > 0 {
        left -= 1;
        renew_one(alloc, &mut wires, renewed[left], &later[left])?;
    }
    Ok(wires)
}

/// The multiples of collected values, by the places at which they are collected.
pub fn columns(alloc: Global, carried: &[Carried], places: &[usize]) -> Result<Seq<Wire>, NoMemory>
    ensures { IfOk result (λ ws. ws ≡ map (wire_at (own_inputs 1 (map many carried.now))) places.now) }
{
    let inputs = many_inputs(alloc, 1, carried)?;
    let all = inputs.as_slice();
    let mut wires = Seq::with_room(alloc, places.len())?;
    for at in 0..places.len() {
        wires.add(wire_at(alloc, all, places[at])?)?;
    }
    Ok(wires)
}

/// The place among the loop names of a value of a clause, where it is one of them and no mask of
/// `unless`.
pub fn kept(around: usize, count: usize, is_negated: bool, e: &TypedExpr) -> Option<usize>
    ensures { (forms : List Form) → result ≡ kept (loop_name around count) is_negated (phrase forms e.now).name }
{
    if is_negated {
        None
    } else {
        loop_name(around, count, name_of(e))
    }
}

/// Notes where a value is collected, where the next one besides the loop names is collected there.
fn collect(places: &mut Seq<usize>, next: usize, place: Option<usize>) -> Result<usize, NoMemory>
    ensures places { OnOk result (places.new ≡ places.old ++ place_at next place ∷ []) }
    ensures next { IfOk result (λ k. k ≡ next_after next place) }
{
    match place {
        Some(p) => {
            places.add(p)?;
            Ok(next)
        }
        None => {
            places.add(next)?;
            one_more(next)
        }
    }
}

/// The places at which the values of the clauses and their masks are collected.
pub fn collected(
    alloc: Global,
    around: usize,
    count: usize,
    negated: &[bool],
    parts: &[TypedExpr],
) -> Result<Seq<usize>, NoMemory>
    ensures { (forms : List Form) → IfOk result (λ ps. ps ≡ collected (loop_name around count) count negated.now (phrases forms parts.now)) }
{
    let mut places = Seq::new(alloc);
    let mut next = count;
    let flags = negated.len().min(parts.len());
    for at in 0..flags {
        let is_negated = negated[at];
        let place = kept(around, count, is_negated, &parts[at]);
        next = collect(&mut places, next, place)?;
    }
    Ok(places)
}

fn loop_kind(is_first: bool) -> Compound
    ensures { result ≡ loop_kind is_first }
{
    if is_first {
        Compound::LoopB
    } else {
        Compound::LoopA
    }
}

/// A loop of turns, by its first values, its test and its turn, which stand there.
pub fn loop_node(
    alloc: Global,
    made: &mut Made,
    turns: &Turns,
    first: &Placed,
    test: &Placed,
    turn: &Placed,
    places: &[usize],
    types: &[usize],
) -> Result<Seq<Wire>, NoMemory>
    requires { StandIn made.old first.now.place test.now.place turn.now.place }
    ensures { (before b d : Made) (f g h : Lowers) (tys : List Carried) (env : List Wire) → IsPlaced (f (map into env)) before b first.now → IsPlaced (g (map into env ++ own_inputs 1 tys)) b d test.now → IsPlaced (h (map into env ++ own_inputs 1 tys)) d made.old turn.now → IfOk result (λ ws. IsMade (loop_lowered (loop_kind turns.now.is_first) f g h tys places.now turns.now.clauses types.now env) before made.new ws) }
{
    let clauses = turns.clauses.as_slice();
    let lasting = first.carried.as_slice();
    let spans = columns(alloc, lasting, places)?;
    let multiples = spans.as_slice();
    let bound = Bound::Wired(one());
    let last = returns_part(alloc, made, &bound, clauses, multiples, types)?;
    let arms = Seq::from_slice(alloc, &[0, 1, 2, 3])?;
    let compound = loop_kind(turns.is_first);
    made.whole(
        alloc,
        compound,
        &[first.place, test.place, turn.place, last.place],
        arms,
        0,
        types,
    )
}

/// The inputs of a turn for loop names that have these values at first.
pub fn turn_inputs(alloc: Global, wires: &[Wire]) -> Result<Seq<Wire>, NoMemory>
    ensures { IfOk result (λ ws. ws ≡ own_inputs 1 (types wires.now)) }
{
    let carried = types_of(alloc, wires)?;
    carried_ports(alloc, 0, 1, carried.as_slice())
}

/// The loop names after a turn, whose definitions are the names from a level on.
pub fn renewed(
    alloc: Global,
    names: &Names,
    from: usize,
    turns: &Turns,
    own: Seq<Wire>,
) -> Result<Seq<Wire>, NoMemory>
    ensures { IfOk result (λ ws. ws ≡ renew turns.now.renewed (drop from names.now.here) own) }
{
    let later = names_from(alloc, names, from)?;
    let places = turns.renewed.as_slice();
    renew(alloc, places, later.as_slice(), own)
}
