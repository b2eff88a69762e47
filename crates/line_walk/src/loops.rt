//! The generators and the returns of loops.
ghost use Rattle.std.specs.Prelude.{◌≡◌, ◌++◌, ◌∷◌, ◌<◌, [], length, get_or, map, take, drop, IfOk, OnOk};
ghost use Rattle.lowering.specs.Loops.{width, span, many, single};
ghost use Rattle.typed_tree.specs.declared.expr.Source.{Source};
ghost use Rattle.typed_tree.specs.declared.expr.ClauseForm.{ClauseForm};
ghost use Rattle.line_types.specs.Traces.{take_up, generator_values, generators_traced, elements_in, bound_of, bound_lines, fold_lines, returns_traced, graph_lines};
ghost use Rattle.line_labels.specs.Needs.{added};
ghost use Rattle.line_walk.specs.Met.{plain, limit_or_one, first_flag};

use crate::choices::{element_of, is_array};
use crate::nodes::{add_ones, carried_at, type_of};
use flow_value::{NoMemory, Seq};
use line_labels::Needs;
use loop_folds::{Folding, Masking};
use lowering::Carried;
use std::alloc::Global;
use type_table::{INTEGER, Types};
use typed_tree::{ClauseForm, Source};

/// The multiple of such values.
fn many(carried: Carried) -> Carried
    ensures { result ≡ many carried }
{
    match carried {
        Carried::One(ty) => Carried::Many(ty),
        Carried::Many(ty) => Carried::Many(ty),
        Carried::Callee(f) => Carried::Callee(f),
    }
}

/// One of such a multiple.
fn single(carried: Carried) -> Carried
    ensures { result ≡ single carried }
{
    match carried {
        Carried::One(ty) => Carried::One(ty),
        Carried::Many(ty) => Carried::One(ty),
        Carried::Callee(f) => Carried::Callee(f),
    }
}

/// The multiples of such values.
pub fn multiples(alloc: Global, carried: &[Carried]) -> Result<Seq<Carried>, NoMemory>
    ensures { IfOk result (λ ms. ms ≡ map many carried.now) }
{
    let mut all = Seq::with_room(alloc, carried.len())?;
    for one in carried {
        all.add(many(*one))?;
    }
    Ok(all)
}

/// Adds one of each of these multiples.
pub fn add_singles(names: &mut Seq<Carried>, carried: &[Carried]) -> Result<(), NoMemory>
    ensures { OnOk result (names.new ≡ names.old ++ map single carried.now) }
{
    for one in carried {
        names.add(single(*one))?;
    }
    Ok(())
}

/// The first so many, or all.
fn take_up(carried: &[Carried], count: usize) -> &[Carried]
    ensures { result.now ≡ take_up count carried.now }
{
    if count < carried.len() {
        &carried[..count]
    } else {
        carried
    }
}

/// What stands behind the first so many.
pub fn behind_first(carried: &[Carried], count: usize) -> &[Carried]
    ensures { result.now ≡ drop count carried.now }
{
    if count < carried.len() {
        &carried[count..]
    } else {
        &[]
    }
}

/// How many bounds a generator has.
fn width(source: Source) -> usize
    ensures { result ≡ width source }
{
    match source {
        Source::Range => 2,
        Source::Elements => 1,
        Source::Indexed => 1,
    }
}

/// The elements of an array or a stream, over which a generator goes.
fn elements_in(types: &Types, bounds: &[Carried]) -> Carried
    ensures { result ≡ elements_in types.now bounds.now }
{
    Carried::Many(element_of(types, type_of(carried_at(bounds, 0))))
}

/// Adds what the values of a generator on its bounds carry.
fn add_generator(
    types: &Types,
    values: &mut Seq<Carried>,
    source: Source,
    bounds: &[Carried],
) -> Result<(), NoMemory>
    ensures { OnOk result (values.new ≡ values.old ++ generator_values types.now source bounds.now) }
{
    match source {
        Source::Range => values.extend(&[Carried::Many(INTEGER)]),
        Source::Elements => values.extend(&[elements_in(types, bounds)]),
        Source::Indexed => values.extend(&[elements_in(types, bounds), Carried::Many(INTEGER)]),
    }
}

/// A generator of a list.
fn source_at(sources: &[Source], place: usize) -> Source
    requires { place < length sources.now }
    ensures { (other : Source) → result ≡ get_or sources.now place other }
{
    sources[place]
}

/// A clause of a list.
fn clause_at(clauses: &[ClauseForm], place: usize) -> ClauseForm
    requires { place < length clauses.now }
    ensures { (other : ClauseForm) → result ≡ get_or clauses.now place other }
{
    clauses[place]
}

/// Adds what the lines of generators carry, and gives what their values carry.
pub fn add_generators(
    alloc: Global,
    needs: &mut Needs,
    types: &Types,
    sources: &[Source],
    bounds: &[Carried],
) -> Result<Seq<Carried>, NoMemory>
    ensures needs { OnOk result (needs.new ≡ added needs.old (generators_traced types.now sources.now bounds.now).lines) }
    ensures values { IfOk result (λ vs. vs ≡ (generators_traced types.now sources.now bounds.now).values) }
{
    let mut values = Seq::new(alloc);
    let mut left = bounds;
    for place in 0..sources.len() {
        let source = source_at(sources, place);
        let count = width(source);
        let own = take_up(left, count);
        needs.add_all(own)?;
        add_generator(types, &mut values, source, own)?;
        left = behind_first(left, count);
    }
    Ok(values)
}

/// The lower bound of an `array of`.
#[derive(Clone, Copy)]
pub enum Bound {
    /// What is carried to a port.
    Wired(Carried),
    /// The lower bound of the array that is carried to a port.
    Limit(Carried),
}

/// The lower bound of an `array of` by the first generator, on the bounds.
pub fn bound_of(types: &Types, sources: &[Source], bounds: &[Carried]) -> Bound
    ensures { plain result ≡ bound_of types.now sources.now bounds.now }
{
    match sources {
        [] => Bound::Wired(Carried::One(INTEGER)),
        [first, ..] => first_bound(types, *first, bounds),
    }
}

/// The lower bound by a generator, on the bounds.
fn first_bound(types: &Types, source: Source, bounds: &[Carried]) -> Bound
    ensures { plain result ≡ bound_of types.now (source ∷ []) bounds.now }
{
    let carried = carried_at(bounds, 0);
    match source {
        Source::Range => Bound::Wired(carried),
        Source::Elements => limit_or_one(types, carried),
        Source::Indexed => limit_or_one(types, carried),
    }
}

/// The lower bound of an array, and 1 for a stream.
fn limit_or_one(types: &Types, carried: Carried) -> Bound
    ensures { plain result ≡ limit_or_one types.now carried }
{
    if is_array(types, type_of(carried)) {
        Bound::Limit(carried)
    } else {
        Bound::Wired(Carried::One(INTEGER))
    }
}

/// The multiple of a clause's values, and behind it that of its mask.
fn span(masking: Masking) -> usize
    ensures { result ≡ span masking }
{
    match masking {
        Masking::All => 1,
        Masking::When => 2,
        Masking::Unless => 2,
    }
}

/// Adds what the lines of a lower bound carry.
fn add_bound(needs: &mut Needs, bound: Bound) -> Result<(), NoMemory>
    ensures { OnOk result (needs.new ≡ added needs.old (bound_lines (plain bound))) }
{
    match bound {
        Bound::Wired(carried) => needs.add(carried),
        Bound::Limit(carried) => {
            needs.add(carried)?;
            needs.add(Carried::One(INTEGER))
        }
    }
}

/// Adds what the lines of a clause carry, on its multiples.
#[tactic(auto, using(crate::proofs::Added::added_both))]
fn add_fold(
    needs: &mut Needs,
    bound: Bound,
    folding: Folding,
    multiples: &[Carried],
) -> Result<(), NoMemory>
    ensures { OnOk result (needs.new ≡ added needs.old (fold_lines (plain bound) folding multiples.now)) }
{
    match folding {
        Folding::Array => {
            add_bound(needs, bound)?;
            needs.add_all(multiples)
        }
        Folding::Last => needs.add_all(multiples),
        _ => {
            needs.add(Carried::One(INTEGER))?;
            needs.add_all(multiples)
        }
    }
}

/// Adds what the lines of the clauses of a loop carry, on their multiples.
pub fn add_returns(
    needs: &mut Needs,
    bound: Bound,
    clauses: &[ClauseForm],
    multiples: &[Carried],
    types: &[usize],
) -> Result<(), NoMemory>
    ensures { OnOk result (needs.new ≡ added needs.old (returns_traced (plain bound) clauses.now multiples.now types.now).lines) }
{
    let mut left = multiples;
    let count = clauses.len().min(types.len());
    for place in 0..count {
        let clause = clause_at(clauses, place);
        let columns = span(clause.masking);
        add_fold(needs, bound, clause.folding, take_up(left, columns))?;
        left = behind_first(left, columns);
    }
    Ok(())
}

/// The first so many numbers, or all.
fn first_numbers(numbers: &[usize], count: usize) -> &[usize]
    ensures { result.now ≡ take count numbers.now }
{
    if count < numbers.len() {
        &numbers[..count]
    } else {
        numbers
    }
}

/// Adds what the lines of the part of a loop carry that has its clauses, on their multiples.
#[tactic(auto, using(crate::proofs::Generators::part_results))]
pub fn add_part(
    alloc: Global,
    needs: &mut Needs,
    bound: Bound,
    clauses: &[ClauseForm],
    multiples: &[Carried],
    types: &[usize],
) -> Result<(), NoMemory>
    ensures { OnOk result (needs.new ≡ added needs.old (graph_lines (returns_traced (plain bound) clauses.now multiples.now types.now ∷ []))) }
{
    let mut results = Seq::new(alloc);
    add_ones(&mut results, first_numbers(types, clauses.len()))?;
    add_returns(needs, bound, clauses, multiples, types)?;
    needs.add_all(results.as_slice())?;
    Ok(())
}

/// The flag in front, where there is one, and those behind it.
pub fn next_flag(flags: &[bool]) -> (Option<bool>, &[bool])
    ensures first { result.0 ≡ first_flag flags.now }
    ensures rest { result.1.now ≡ drop 1 flags.now }
{
    match flags.split_first() {
        Some((flag, rest)) => (Some(*flag), rest),
        None => (None, flags),
    }
}
