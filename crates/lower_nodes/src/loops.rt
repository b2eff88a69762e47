//! The generators and the returns of loops.
ghost use Rattle.std.specs.Prelude.{◌≡◌, ◌<◌, ◌^◌, ◌++◌, false, get_or, length, map, drop, IfOk, OnOk};
ghost use Rattle.lowering.specs.Loops.{
  width,
  take_up,
  types,
  many,
  single,
  own_inputs,
  reducer_name,
  grouping_of,
  span,
  fold_lowered,
  returns_lowered,
  elements_in,
  generator_lowered,
  generators_lowered,
  bound_of,
  mask_places,
  unless_places,
};
ghost use Rattle.typed_tree.specs.declared.expr.Source.{Source};
ghost use Rattle.typed_tree.specs.declared.expr.ClauseForm.{ClauseForm};
ghost use Rattle.lowering.specs.Graphs.{Lowering};
ghost use Rattle.lowered_data.specs.declared.made.Made.{Made};
ghost use Rattle.lowered_data.specs.Scopes.{with_names, entered};
ghost use Rattle.lowered_data.specs.States.{IsMade, opened, around_of};
ghost use Rattle.lower_nodes.specs.Placing.{IsPlaced};
ghost use Rattle.lower_nodes.specs.Bounds.{plain, first_bound, limit_or_one, gathered, reduced};

use crate::choices::{element_of, is_array, type_of};
use crate::operations::row;
use crate::wiring::{INTEGER, append, behind, copied, one, wire_at};
use flow_value::{NoMemory, Seq};
use if1_graph::{Grouping, Simple};
use loop_folds::{Folding, Masking};
use lowered_data::{Around, Made, Names, copy_wire, one_wire, output};
use lowering::{Action, Carried, Feed, Wire};
use sisal_tree::Direction;
use std::alloc::Global;
use type_table::Types;
use typed_tree::{ClauseForm, Source};

/// The multiple of such values.
pub fn many(ty: Carried) -> Carried
    ensures { result ≡ many ty }
{
    match ty {
        Carried::One(ty) => Carried::Many(ty),
        Carried::Many(ty) => Carried::Many(ty),
        Carried::Callee(f) => Carried::Callee(f),
    }
}

/// One of such a multiple.
pub fn single(ty: Carried) -> Carried
    ensures { result ≡ single ty }
{
    match ty {
        Carried::One(ty) => Carried::One(ty),
        Carried::Many(ty) => Carried::One(ty),
        Carried::Callee(f) => Carried::Callee(f),
    }
}

/// What wires carry.
pub fn types_of(alloc: Global, wires: &[Wire]) -> Result<Seq<Carried>, NoMemory>
    ensures { IfOk result (λ ts. ts ≡ types wires.now) }
{
    let mut carried = Seq::with_room(alloc, wires.len())?;
    for w in wires {
        carried.add(w.ty)?;
    }
    Ok(carried)
}

/// Own inputs of a part from one on, which carry multiples of these.
pub fn many_inputs(alloc: Global, port: usize, carried: &[Carried]) -> Result<Seq<Wire>, NoMemory>
    requires { port < 2 ^ 62 }
    ensures { IfOk result (λ ws. ws ≡ own_inputs port (map many carried.now)) }
{
    let mut wires = Seq::with_room(alloc, carried.len())?;
    for place in 0..carried.len() {
        wires.add(output(0, port + place, many(carried[place])))?;
    }
    Ok(wires)
}

/// Own inputs of a part from 1 on, which carry one of each of these multiples.
pub fn single_inputs(alloc: Global, carried: &[Carried]) -> Result<Seq<Wire>, NoMemory>
    ensures { IfOk result (λ ws. ws ≡ own_inputs 1 (map single carried.now)) }
{
    let mut wires = Seq::with_room(alloc, carried.len())?;
    for place in 0..carried.len() {
        wires.add(output(0, 1 + place, single(carried[place])))?;
    }
    Ok(wires)
}

/// The first so many wires, or all.
fn take_up(wires: &[Wire], count: usize) -> &[Wire]
    ensures { result.now ≡ take_up count wires.now }
{
    if count < wires.len() {
        &wires[..count]
    } else {
        wires
    }
}

/// The wires behind the first so many.
fn behind_first(wires: &[Wire], count: usize) -> &[Wire]
    ensures { result.now ≡ drop count wires.now }
{
    if count < wires.len() {
        &wires[count..]
    } else {
        &[]
    }
}

/// How many bounds a generator has.
fn width(source: Source) -> usize
    ensures { result ≡ width source }
{
    match source {
        Source::Range => 2,
        Source::Elements => 1,
        Source::Indexed => 1,
    }
}

/// The elements of an array or a stream, over which a generator goes.
fn elements_in(alloc: Global, forms: &Types, bounds: &[Wire]) -> Result<Carried, NoMemory>
    ensures { IfOk result (λ t. t ≡ elements_in forms.now bounds.now) }
{
    let w = wire_at(alloc, bounds, 0)?;
    Ok(Carried::Many(element_of(forms, type_of(w.ty))))
}

/// A generator on its bounds.
fn generator(
    alloc: Global,
    forms: &Types,
    made: &mut Made,
    source: Source,
    bounds: &[Wire],
) -> Result<Seq<Wire>, NoMemory>
    ensures { IfOk result (λ ws. IsMade (generator_lowered forms.now source bounds.now) made.old made.new ws) }
{
    let ins = copied(alloc, bounds)?;
    match source {
        Source::Range => made.add_carried(
            alloc,
            Action::Row(Simple::RangeGenerate),
            ins,
            1,
            &[Carried::Many(INTEGER)],
        ),
        Source::Elements => {
            let elements = elements_in(alloc, forms, bounds)?;
            let outputs = [elements, Carried::Many(INTEGER)];
            let action = Action::Row(Simple::AScatter);
            let mut both = made.add_carried(alloc, action, ins, 1, &outputs)?;
            both.truncate(1);
            Ok(both)
        }
        Source::Indexed => {
            let elements = elements_in(alloc, forms, bounds)?;
            let outputs = [elements, Carried::Many(INTEGER)];
            let action = Action::Row(Simple::AScatter);
            made.add_carried(alloc, action, ins, 1, &outputs)
        }
    }
}

/// A generator of a list.
fn source_at(sources: &[Source], place: usize) -> Source
    requires { place < length sources.now }
    ensures { (other : Source) → result ≡ get_or sources.now place other }
{
    sources[place]
}

/// A clause of a list.
fn clause_at(clauses: &[ClauseForm], place: usize) -> ClauseForm
    requires { place < length clauses.now }
    ensures { (other : ClauseForm) → result ≡ get_or clauses.now place other }
{
    clauses[place]
}

/// The generators of a loop on their bounds.
fn generators(
    alloc: Global,
    forms: &Types,
    made: &mut Made,
    sources: &[Source],
    bounds: &[Wire],
) -> Result<Seq<Wire>, NoMemory>
    ensures { IfOk result (λ ws. IsMade (generators_lowered forms.now sources.now bounds.now) made.old made.new ws) }
{
    let mut values = Seq::new(alloc);
    let mut left = bounds;
    for place in 0..sources.len() {
        let source = source_at(sources, place);
        let count = width(source);
        let more = generator(alloc, forms, made, source, take_up(left, count))?;
        append(&mut values, more)?;
        left = behind_first(left, count);
    }
    Ok(values)
}

/// The lower bound of an `array of`.
#[derive(Drop)]
pub enum Bound {
    /// What fills a port.
    Wired(Wire),
    /// The lower bound of the array that fills a port.
    Limit(Wire),
}

/// The lower bound of an `array of` by the first generator, on the bounds.
pub fn bound_of(
    alloc: Global,
    forms: &Types,
    sources: &[Source],
    bounds: &[Wire],
) -> Result<Bound, NoMemory>
    ensures { IfOk result (λ b. plain b ≡ bound_of forms.now sources.now bounds.now) }
{
    match sources {
        [] => Ok(Bound::Wired(one())),
        [first, ..] => first_bound(alloc, forms, *first, bounds),
    }
}

/// The lower bound by a generator, on the bounds.
fn first_bound(
    alloc: Global,
    forms: &Types,
    source: Source,
    bounds: &[Wire],
) -> Result<Bound, NoMemory>
    ensures { IfOk result (λ b. plain b ≡ first_bound forms.now source bounds.now) }
{
    let w = wire_at(alloc, bounds, 0)?;
    match source {
        Source::Range => Ok(Bound::Wired(w)),
        Source::Elements => Ok(limit_or_one(forms, w)),
        Source::Indexed => Ok(limit_or_one(forms, w)),
    }
}

/// The lower bound of an array, and 1 for a stream.
fn limit_or_one(forms: &Types, w: Wire) -> Bound
    ensures { plain result ≡ limit_or_one forms.now w }
{
    if is_array(forms, type_of(w.ty)) {
        Bound::Limit(w)
    } else {
        Bound::Wired(one())
    }
}

/// The multiple of a clause's values, and behind it that of its mask.
fn span(masking: Masking) -> usize
    ensures { result ≡ span masking }
{
    match masking {
        Masking::All => 1,
        Masking::When => 2,
        Masking::Unless => 2,
    }
}

fn grouping_of(direction: Direction) -> Grouping
    ensures { result ≡ grouping_of direction }
{
    match direction {
        Direction::Any => Grouping::Free,
        Direction::Left => Grouping::Left,
        Direction::Right => Grouping::Right,
        Direction::Tree => Grouping::Tree,
    }
}

/// The name of a reduction.
fn reducer_name(folding: Folding) -> &'static [u8]
    ensures { result.now ≡ reducer_name folding }
{
    match folding {
        Folding::Sum => b"sum",
        Folding::Product => b"product",
        Folding::Least => b"least",
        Folding::Greatest => b"greatest",
        _ => b"catenate",
    }
}

/// An AGather from a lower bound.
fn gather(
    alloc: Global,
    made: &mut Made,
    bound: &Bound,
    multiples: Seq<Wire>,
    ty: usize,
) -> Result<Seq<Wire>, NoMemory>
    ensures { IfOk result (λ ws. IsMade (gathered (plain bound.now) multiples ty) made.old made.new ws) }
{
    match bound {
        Bound::Wired(w) => {
            let ins = behind(alloc, copy_wire(alloc, w)?, multiples)?;
            row(alloc, made, Simple::AGather, ins, &[ty])
        }
        Bound::Limit(w) => {
            let array = one_wire(alloc, copy_wire(alloc, w)?)?;
            let low = row(alloc, made, Simple::ALimL, array, &[INTEGER])?;
            let ins = behind(alloc, wire_at(alloc, low.as_slice(), 0)?, multiples)?;
            row(alloc, made, Simple::AGather, ins, &[ty])
        }
    }
}

/// A reduction.
fn reduce(
    alloc: Global,
    made: &mut Made,
    clause: ClauseForm,
    multiples: Seq<Wire>,
    ty: usize,
) -> Result<Seq<Wire>, NoMemory>
    ensures { IfOk result (λ ws. IsMade (reduced clause.folding clause.direction multiples ty) made.old made.new ws) }
{
    let name = Wire {
        feed: Feed::Named(Seq::from_slice(alloc, reducer_name(clause.folding))?),
        ty: Carried::One(INTEGER),
    };
    let ins = behind(alloc, name, multiples)?;
    let op = Simple::Reduce(grouping_of(clause.direction));
    row(alloc, made, op, ins, &[ty])
}

/// What a clause makes of its multiples.
fn fold(
    alloc: Global,
    made: &mut Made,
    bound: &Bound,
    clause: ClauseForm,
    multiples: Seq<Wire>,
    ty: usize,
) -> Result<Seq<Wire>, NoMemory>
    ensures { IfOk result (λ ws. IsMade (fold_lowered (plain bound.now) clause.folding clause.direction multiples ty) made.old made.new ws) }
{
    match clause.folding {
        Folding::Array => gather(alloc, made, bound, multiples, ty),
        Folding::Stream => {
            let ins = behind(alloc, one(), multiples)?;
            row(alloc, made, Simple::AGather, ins, &[ty])
        }
        Folding::Last => row(alloc, made, Simple::FinalValue, multiples, &[ty]),
        _ => reduce(alloc, made, clause, multiples, ty),
    }
}

/// What the clauses of a loop make of their multiples.
fn returns(
    alloc: Global,
    made: &mut Made,
    bound: &Bound,
    clauses: &[ClauseForm],
    multiples: &[Wire],
    types: &[usize],
) -> Result<Seq<Wire>, NoMemory>
    ensures { IfOk result (λ ws. IsMade (returns_lowered (plain bound.now) clauses.now multiples.now types.now) made.old made.new ws) }
{
    let mut values = Seq::new(alloc);
    let mut left = multiples;
    let count = clauses.len().min(types.len());
    for place in 0..count {
        let clause = clause_at(clauses, place);
        let columns = span(clause.masking);
        let many = copied(alloc, take_up(left, columns))?;
        let more = fold(alloc, made, bound, clause, many, types[place])?;
        append(&mut values, more)?;
        left = behind_first(left, columns);
    }
    Ok(values)
}

/// A part of a loop: its place, and what its values carry.
#[derive(Drop)]
pub struct Placed {
    /// Its place.
    pub place: usize,
    /// What its values carry.
    pub carried: Seq<Carried>,
}

/// Begins a part of a loop, in which these are names too.
pub fn begin(
    alloc: Global,
    names: &mut Names,
    made: &mut Made,
    own: &[Wire],
) -> Result<Around, NoMemory>
    ensures made { OnOk result (made.new ≡ opened made.old) }
    ensures around { IfOk result (λ a. a ≡ around_of made.old) }
    ensures names { OnOk result (names.new ≡ with_names (entered names.old) own.now) }
{
    let around = made.open(alloc)?;
    names.enter()?;
    names.define(alloc, own)?;
    Ok(around)
}

/// Ends a part of a loop, which has these values.
pub fn shut_part(
    alloc: Global,
    made: &mut Made,
    around: Around,
    values: Seq<Wire>,
) -> Result<Placed, NoMemory>
    requires { around.place < length made.old.graphs }
    ensures { IfOk result (λ p. (f : Lowering) (before : Made) → around ≡ around_of before → IsMade f (opened before) made.old values → IsPlaced f before made.new p) }
{
    let carried = types_of(alloc, values.as_slice())?;
    let place = made.shut(around, values)?;
    Ok(Placed { place, carried })
}

/// The generators of a loop on their bounds, as they are seen from inside.
pub fn generator_part(
    alloc: Global,
    forms: &Types,
    made: &mut Made,
    sources: &[Source],
    bounds: &[Wire],
) -> Result<Placed, NoMemory>
    ensures { IfOk result (λ p. IsPlaced (generators_lowered forms.now sources.now bounds.now) made.old made.new p) }
{
    let around = made.open(alloc)?;
    let values = generators(alloc, forms, made, sources, bounds)?;
    shut_part(alloc, made, around, values)
}

/// What the clauses of a loop make of their multiples, in a part.
pub fn returns_part(
    alloc: Global,
    made: &mut Made,
    bound: &Bound,
    clauses: &[ClauseForm],
    multiples: &[Wire],
    types: &[usize],
) -> Result<Placed, NoMemory>
    ensures { IfOk result (λ p. IsPlaced (returns_lowered (plain bound.now) clauses.now multiples.now types.now) made.old made.new p) }
{
    let around = made.open(alloc)?;
    let values = returns(alloc, made, bound, clauses, multiples, types)?;
    shut_part(alloc, made, around, values)
}

/// Which of the values of clauses are masks of `unless`.
pub fn unless_places(alloc: Global, clauses: &[ClauseForm]) -> Result<Seq<bool>, NoMemory>
    ensures { IfOk result (λ bs. bs ≡ unless_places clauses.now) }
{
    let mut places = Seq::new(alloc);
    for place in 0..clauses.len() {
        note_masking(&mut places, clauses[place].masking)?;
    }
    Ok(places)
}

/// Notes the value of a clause, and its mask.
fn note_masking(places: &mut Seq<bool>, masking: Masking) -> Result<(), NoMemory>
    ensures { OnOk result (places.new ≡ places.old ++ mask_places masking) }
{
    match masking {
        Masking::All => places.extend(&[false]),
        Masking::When => places.extend(&[false, false]),
        Masking::Unless => places.extend(&[false, true]),
    }
}

/// A flag, and false where there is none.
pub fn flag_at(flags: &[bool], place: usize) -> bool
    ensures { result ≡ get_or flags.now place false }
{
    if place < flags.len() {
        flags[place]
    } else {
        false
    }
}
