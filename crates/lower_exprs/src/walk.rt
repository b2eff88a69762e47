//! Expressions are lowered, by their parts.
ghost use Rattle.std.specs.Prelude.{◌≡◌, ◌∷◌, ◌++◌, ◌<◌, [], length, map, take, slice_index, IfOk, OnOk};
ghost use Rattle.lowering.specs.Feeds.{into};
ghost use Rattle.lowering.specs.Operations.{all_lowered, wire_at};
ghost use Rattle.lowering.specs.Loops.{clauses_lowered, loop_name, extras, row_of_turn};
ghost use Rattle.lowering.specs.Phrases.{each, lowers};
ghost use Rattle.lowered_data.specs.Scopes.{scopes, with_names, first_names};
ghost use Rattle.lowered_data.specs.States.{IsMade, IsPart, AreParts, places_in};
ghost use Rattle.lower_nodes.specs.Placing.{IsPlaced};
ghost use Rattle.lower_exprs.specs.Turned.{extra_lowered};
ghost use Rattle.lower_exprs.specs.Phrased.{
  kind_of,
  alls,
  all_defs,
  call_of,
  apply_of,
  selector_of,
  arms_in,
  content_at,
  with_content,
  Grows,
  IsLet,
  IsIf,
  IsCase,
  IsProduct,
  IsInitial,
  maybe_not,
  phrases,
};

use crate::foralls::forall_node;
use crate::turns::{collected, kept, loop_node, names_from, renewed, turn_inputs};
use flow_value::{NoMemory, Numbers, Scalar1, Seq};
use if1_graph::{Compound, Simple};
use lower_nodes::{
    BOOLEAN, INTEGER, Placed, append, applied, arms_of, begin, constant, content_of, first_tags,
    flag_at, generator_part, inside, nil, row, shut_part, single_inputs, tag_count, type_of,
    unless_places, wire_at,
};
use lowered_data::{Made, Names, one_wire, output};
use lowering::{Action, Carried, Wire};
use std::alloc::Global;
use type_table::Types;
use typed_tree::{Case, TypedExpr, TypedKind};
use value_ops::Operation;

/// What the name of a level stands for.
fn name(alloc: Global, names: &Names, level: u32) -> Result<Seq<Wire>, NoMemory>
    ensures { IfOk result (λ ws. ws ≡ wire_at names.now.here level ∷ []) }
{
    match names.find(alloc, level as usize)? {
        Some(w) => one_wire(alloc, w),
        None => one_wire(alloc, nil()),
    }
}

/// An expression.
#[cycle(lowered)]
pub fn expr(
    alloc: Global,
    forms: &Types,
    names: &mut Names,
    made: &mut Made,
    e: &TypedExpr,
) -> Result<Seq<Wire>, NoMemory>
    ensures made { IfOk result (λ ws. IsMade (lowers forms.now e.now names.old.here) made.old made.new ws) }
    ensures names { OnOk result (names.new ≡ names.old) }
{
    kind(alloc, forms, names, made, &e.kind, e.types.as_slice())
}

/// A form of expression whose values have these types.
#[cycle(lowered)]
fn kind(
    alloc: Global,
    forms: &Types,
    names: &mut Names,
    made: &mut Made,
    kind: &TypedKind,
    types: &[usize],
) -> Result<Seq<Wire>, NoMemory>
    ensures made { IfOk result (λ ws. IsMade (kind_of forms.now kind.now types.now names.old.here) made.old made.new ws) }
    ensures names { OnOk result (names.new ≡ names.old) }
{
    match kind {
        TypedKind::Constant(value) => constant(alloc, made, value, types),
        TypedKind::Value(level) => name(alloc, names, *level),
        TypedKind::Group(parts) => expressions(alloc, forms, names, made, parts.as_slice()),
        TypedKind::Call(f, parts) => call(alloc, forms, names, made, *f, parts.as_slice(), types),
        TypedKind::Apply(op, parts) => {
            apply(alloc, forms, names, made, op, parts.as_slice(), types)
        }
        TypedKind::Let(_, _) => let_in(alloc, forms, names, made, kind, types),
        TypedKind::If(_, _, _) => if_else(alloc, forms, names, made, kind, types),
        TypedKind::Case(_, _, _) => tag_case(alloc, forms, names, made, kind, types),
        TypedKind::Product(_, _, _, _) => product(alloc, forms, names, made, kind, types),
        TypedKind::Initial(_, _, _, _, _) => initial(alloc, forms, names, made, kind, types),
    }
}

/// Expressions one after another, with the values of all.
#[cycle(lowered)]
pub fn expressions(
    alloc: Global,
    forms: &Types,
    names: &mut Names,
    made: &mut Made,
    parts: &[TypedExpr],
) -> Result<Seq<Wire>, NoMemory>
    ensures made { IfOk result (λ ws. IsMade (alls forms.now parts.now names.old.here) made.old made.new ws) }
    ensures names { OnOk result (names.new ≡ names.old) }
{
    let mut values = Seq::new(alloc);
    for e in parts {
        let more = expr(alloc, forms, names, made, e)?;
        append(&mut values, more)?;
    }
    Ok(values)
}

/// A call of a function.
#[cycle(lowered)]
fn call(
    alloc: Global,
    forms: &Types,
    names: &mut Names,
    made: &mut Made,
    function: u32,
    parts: &[TypedExpr],
    types: &[usize],
) -> Result<Seq<Wire>, NoMemory>
    ensures made { IfOk result (λ ws. IsMade (call_of forms.now function parts.now types.now names.old.here) made.old made.new ws) }
    ensures names { OnOk result (names.new ≡ names.old) }
{
    let ins = expressions(alloc, forms, names, made, parts)?;
    made.add(alloc, Action::Call(function), ins, 1, types)
}

/// An operation on its operands.
#[cycle(lowered)]
fn apply(
    alloc: Global,
    forms: &Types,
    names: &mut Names,
    made: &mut Made,
    op: &Operation,
    parts: &[TypedExpr],
    types: &[usize],
) -> Result<Seq<Wire>, NoMemory>
    ensures made { IfOk result (λ ws. IsMade (apply_of forms.now op.now parts.now types.now names.old.here) made.old made.new ws) }
    ensures names { OnOk result (names.new ≡ names.old) }
{
    let wires = expressions(alloc, forms, names, made, parts)?;
    applied(alloc, forms, made, op, wires, types)
}

/// Definitions, each of which sees the earlier ones; their names come into force.
#[cycle(lowered)]
fn defined(
    alloc: Global,
    forms: &Types,
    names: &mut Names,
    made: &mut Made,
    defs: &[Seq<TypedExpr>],
) -> Result<(), NoMemory>
    ensures made { OnOk result (IsMade (all_defs forms.now defs.now names.old.here) made.old made.new names.new.here) }
    ensures names { OnOk result (Grows names.old names.new) }
{
    for def in defs {
        let values = expressions(alloc, forms, names, made, def.as_slice())?;
        names.define(alloc, values.as_slice())?;
    }
    Ok(())
}

/// `let .. in .. end let`
#[cycle(lowered)]
fn let_in(
    alloc: Global,
    forms: &Types,
    names: &mut Names,
    made: &mut Made,
    kind: &TypedKind,
    types: &[usize],
) -> Result<Seq<Wire>, NoMemory>
    requires { IsLet kind.now }
    ensures made { IfOk result (λ ws. IsMade (kind_of forms.now kind.now types.now names.old.here) made.old made.new ws) }
    ensures names { OnOk result (names.new ≡ names.old) }
{
    let TypedKind::Let(defs, parts) = kind else {
        unreachable!()
    };
    let before = names.len();
    defined(alloc, forms, names, made, defs.as_slice())?;
    let values = expressions(alloc, forms, names, made, parts.as_slice())?;
    names.truncate(before);
    Ok(values)
}

/// A graph inside that gives the values of expressions; its place.
#[cycle(lowered)]
fn part(
    alloc: Global,
    forms: &Types,
    names: &mut Names,
    made: &mut Made,
    parts: &[TypedExpr],
) -> Result<usize, NoMemory>
    ensures part { OnOk result (IsPart (alls forms.now parts.now (map into names.old.here)) made.old made.new) }
    ensures place { IfOk result (λ place. place ≡ length made.old.graphs) }
    ensures names { OnOk result (names.new ≡ names.old) }
{
    let around = made.open(alloc)?;
    names.enter()?;
    let values = expressions(alloc, forms, names, made, parts)?;
    names.leave();
    made.shut(around, values)
}

/// The selector of an `if`; its place.
#[cycle(lowered)]
fn selector(
    alloc: Global,
    forms: &Types,
    names: &mut Names,
    made: &mut Made,
    parts: &[TypedExpr],
) -> Result<usize, NoMemory>
    ensures part { OnOk result (IsPart (selector_of forms.now parts.now (map into names.old.here)) made.old made.new) }
    ensures place { IfOk result (λ place. place ≡ length made.old.graphs) }
    ensures names { OnOk result (names.new ≡ names.old) }
{
    let around = made.open(alloc)?;
    names.enter()?;
    let test = expressions(alloc, forms, names, made, parts)?;
    let values = row(alloc, made, Simple::One(Scalar1::Int), test, &[INTEGER])?;
    names.leave();
    made.shut(around, values)
}

/// `if .. then .. else .. end if`
#[cycle(lowered)]
fn if_else(
    alloc: Global,
    forms: &Types,
    names: &mut Names,
    made: &mut Made,
    kind: &TypedKind,
    types: &[usize],
) -> Result<Seq<Wire>, NoMemory>
    requires { IsIf kind.now }
    ensures made { IfOk result (λ ws. IsMade (kind_of forms.now kind.now types.now names.old.here) made.old made.new ws) }
    ensures names { OnOk result (names.new ≡ names.old) }
{
    let TypedKind::If(test, arm, other) = kind else {
        unreachable!()
    };
    let first = selector(alloc, forms, names, made, test.as_slice())?;
    let second = part(alloc, forms, names, made, other.as_slice())?;
    let third = part(alloc, forms, names, made, arm.as_slice())?;
    let arms = Seq::from_slice(alloc, &[0, 1, 2])?;
    made.whole(
        alloc,
        Compound::Select,
        &[first, second, third],
        arms,
        0,
        types,
    )
}

/// An arm of a `tagcase`, which may see the content of the union; its place.
#[cycle(lowered)]
fn arm(
    alloc: Global,
    forms: &Types,
    names: &mut Names,
    made: &mut Made,
    content: Option<usize>,
    parts: &[TypedExpr],
) -> Result<usize, NoMemory>
    ensures part { OnOk result (IsPart (alls forms.now parts.now (with_content content (map into names.old.here))) made.old made.new) }
    ensures place { IfOk result (λ place. place ≡ length made.old.graphs) }
    ensures names { OnOk result (names.new ≡ names.old) }
{
    let around = made.open(alloc)?;
    names.enter()?;
    define_content(alloc, names, content)?;
    let values = expressions(alloc, forms, names, made, parts)?;
    names.leave();
    made.shut(around, values)
}

/// The content of a union comes into force, where it has a name.
fn define_content(alloc: Global, names: &mut Names, content: Option<usize>) -> Result<(), NoMemory>
    ensures { OnOk result (names.new ≡ scopes (with_content content names.old.here) names.old.marks) }
{
    match content {
        Some(ty) => names.define(alloc, &[output(0, 1, Carried::One(ty))]),
        None => Ok(()),
    }
}

/// The type of the content that an arm sees.
fn content_at(forms: &Types, ty: usize, named: u32, tags: &Numbers, arm: usize) -> Option<usize>
    requires { arm < length tags.now }
    ensures { result ≡ content_at forms.now ty named (slice_index tags.now arm) arm }
{
    let tags = tags.as_slice();
    if arm < named as usize {
        Some(content_of(forms, ty, tags[arm]))
    } else {
        None
    }
}

/// The arms of a `tagcase` on a union of a type, of which the first so many see its content; their
/// places.
#[cycle(lowered)]
fn arms(
    alloc: Global,
    forms: &Types,
    names: &mut Names,
    made: &mut Made,
    case: &Case,
    ty: usize,
    parts: &[Seq<TypedExpr>],
) -> Result<Seq<usize>, NoMemory>
    ensures parts { OnOk result (AreParts (arms_in forms.now case.now ty 0 parts.now names.old.here) made.old made.new) }
    ensures places { IfOk result (λ places. places ≡ places_in made.old (arms_in forms.now case.now ty 0 parts.now names.old.here)) }
    ensures names { OnOk result (names.new ≡ names.old) }
{
    let choices = case.choices.as_slice();
    let tags = first_tags(alloc, choices, parts.len())?;
    let mut places = Seq::new(alloc);
    for at in 0..parts.len() {
        let content = content_at(forms, ty, case.named, &tags, at);
        let values = parts[at].as_slice();
        let place = arm(alloc, forms, names, made, content, values)?;
        places.add(place)?;
    }
    Ok(places)
}

/// `tagcase .. end tagcase`
#[cycle(lowered)]
fn tag_case(
    alloc: Global,
    forms: &Types,
    names: &mut Names,
    made: &mut Made,
    kind: &TypedKind,
    types: &[usize],
) -> Result<Seq<Wire>, NoMemory>
    requires { IsCase kind.now }
    ensures made { IfOk result (λ ws. IsMade (kind_of forms.now kind.now types.now names.old.here) made.old made.new ws) }
    ensures names { OnOk result (names.new ≡ names.old) }
{
    let TypedKind::Case(case, subject, parts) = kind else {
        unreachable!()
    };
    let unions = subject.as_slice();
    let wires = expressions(alloc, forms, names, made, unions)?;
    let given = wires.as_slice();
    let union = wire_at(alloc, given, 0)?;
    let ty = type_of(union.ty);
    let results = parts.as_slice();
    let places = arms(alloc, forms, names, made, case, ty, results)?;
    let table = arms_of(alloc, case, tag_count(forms, ty))?;
    let stands = places.as_slice();
    made.tag_case(alloc, union, stands, table, types)
}

/// An expression, or its Not.
#[cycle(lowered)]
fn value(
    alloc: Global,
    forms: &Types,
    names: &mut Names,
    made: &mut Made,
    is_negated: bool,
    e: &TypedExpr,
) -> Result<Seq<Wire>, NoMemory>
    ensures made { IfOk result (λ ws. IsMade (maybe_not is_negated (lowers forms.now e.now) names.old.here) made.old made.new ws) }
    ensures names { OnOk result (names.new ≡ names.old) }
{
    let values = expr(alloc, forms, names, made, e)?;
    if is_negated {
        row(alloc, made, Simple::One(Scalar1::Not), values, &[BOOLEAN])
    } else {
        Ok(values)
    }
}

/// The values of the clauses of a loop, each with its mask behind it, of which some are negated.
#[cycle(lowered)]
fn clause_values(
    alloc: Global,
    forms: &Types,
    names: &mut Names,
    made: &mut Made,
    negated: &[bool],
    parts: &[TypedExpr],
) -> Result<Seq<Wire>, NoMemory>
    ensures made { IfOk result (λ ws. IsMade (all_lowered (clauses_lowered negated.now (each (phrases forms.now parts.now))) names.old.here) made.old made.new ws) }
    ensures names { OnOk result (names.new ≡ names.old) }
{
    let mut values = Seq::new(alloc);
    for at in 0..parts.len() {
        let more = value(alloc, forms, names, made, flag_at(negated, at), &parts[at])?;
        append(&mut values, more)?;
    }
    Ok(values)
}

/// `for .. end for` over generators.
#[cycle(lowered)]
fn product(
    alloc: Global,
    forms: &Types,
    names: &mut Names,
    made: &mut Made,
    kind: &TypedKind,
    types: &[usize],
) -> Result<Seq<Wire>, NoMemory>
    requires { IsProduct kind.now }
    ensures made { IfOk result (λ ws. IsMade (kind_of forms.now kind.now types.now names.old.here) made.old made.new ws) }
    ensures names { OnOk result (names.new ≡ names.old) }
{
    let TypedKind::Product(product, bounds, defs, parts) = kind else {
        unreachable!()
    };
    let ends = bounds.as_slice();
    let wires = expressions(alloc, forms, names, made, ends)?;
    let given = wires.as_slice();
    let seen = inside(alloc, given)?;
    let inner = seen.as_slice();
    let sources = product.sources.as_slice();
    let first = generator_part(alloc, forms, made, sources, inner)?;
    let elements = first.carried.as_slice();
    let own = single_inputs(alloc, elements)?;
    let named = own.as_slice();
    let clauses = product.clauses.as_slice();
    let negated = unless_places(alloc, clauses)?;
    let flags = negated.as_slice();
    let around = begin(alloc, names, made, named)?;
    let lets = defs.as_slice();
    defined(alloc, forms, names, made, lets)?;
    let results = parts.as_slice();
    let values = clause_values(alloc, forms, names, made, flags, results)?;
    names.leave();
    let second = shut_part(alloc, made, around, values)?;
    forall_node(alloc, forms, made, product, inner, &first, &second, types)
}

/// A value or mask of a clause, unless it is the loop name of a place.
#[cycle(lowered)]
fn extra(
    alloc: Global,
    forms: &Types,
    names: &mut Names,
    made: &mut Made,
    place: Option<usize>,
    is_negated: bool,
    e: &TypedExpr,
) -> Result<Seq<Wire>, NoMemory>
    ensures made { IfOk result (λ ws. IsMade (extra_lowered place (maybe_not is_negated (lowers forms.now e.now)) names.old.here) made.old made.new ws) }
    ensures names { OnOk result (names.new ≡ names.old) }
{
    match place {
        Some(_) => Ok(Seq::new(alloc)),
        None => value(alloc, forms, names, made, is_negated, e),
    }
}

/// What a loop of turns collects besides its loop names.
#[cycle(lowered)]
fn extras(
    alloc: Global,
    forms: &Types,
    names: &mut Names,
    made: &mut Made,
    around: usize,
    count: usize,
    negated: &[bool],
    parts: &[TypedExpr],
) -> Result<Seq<Wire>, NoMemory>
    ensures made { IfOk result (λ ws. IsMade (all_lowered (extras (loop_name around count) negated.now (phrases forms.now parts.now)) names.old.here) made.old made.new ws) }
    ensures names { OnOk result (names.new ≡ names.old) }
{
    let mut values = Seq::new(alloc);
    let flags = negated.len().min(parts.len());
    for at in 0..flags {
        let is_negated = negated[at];
        let place = kept(around, count, is_negated, &parts[at]);
        let more = extra(alloc, forms, names, made, place, is_negated, &parts[at])?;
        append(&mut values, more)?;
    }
    Ok(values)
}

/// The loop names, which come into force behind the names around, and what is collected besides.
#[cycle(lowered)]
fn turned(
    alloc: Global,
    forms: &Types,
    names: &mut Names,
    made: &mut Made,
    around: usize,
    count: usize,
    negated: &[bool],
    own: Seq<Wire>,
    parts: &[TypedExpr],
) -> Result<Seq<Wire>, NoMemory>
    ensures made { IfOk result (λ ws. IsMade (row_of_turn (extras (loop_name around count) negated.now (phrases forms.now parts.now)) (take around names.old.here) own) made.old made.new ws) }
    ensures names { OnOk result (names.new ≡ with_names (first_names around names.old) own) }
{
    names.truncate(around);
    names.define(alloc, own.as_slice())?;
    let mut values = own;
    let more = extras(alloc, forms, names, made, around, count, negated, parts)?;
    append(&mut values, more)?;
    Ok(values)
}

/// Expressions, or the Not of their value.
#[cycle(lowered)]
fn tested(
    alloc: Global,
    forms: &Types,
    names: &mut Names,
    made: &mut Made,
    is_until: bool,
    parts: &[TypedExpr],
) -> Result<Seq<Wire>, NoMemory>
    ensures made { IfOk result (λ ws. IsMade (maybe_not is_until (alls forms.now parts.now) names.old.here) made.old made.new ws) }
    ensures names { OnOk result (names.new ≡ names.old) }
{
    let values = expressions(alloc, forms, names, made, parts)?;
    if is_until {
        row(alloc, made, Simple::One(Scalar1::Not), values, &[BOOLEAN])
    } else {
        Ok(values)
    }
}

/// The test of a loop of turns, in a part in which these are names too.
#[cycle(lowered)]
fn test_part(
    alloc: Global,
    forms: &Types,
    names: &mut Names,
    made: &mut Made,
    own: &[Wire],
    is_until: bool,
    parts: &[TypedExpr],
) -> Result<Placed, NoMemory>
    ensures part { IfOk result (λ p. IsPlaced (maybe_not is_until (alls forms.now parts.now) (map into names.old.here ++ own.now)) made.old made.new p) }
    ensures names { OnOk result (names.new ≡ names.old) }
{
    let around = begin(alloc, names, made, own)?;
    let values = tested(alloc, forms, names, made, is_until, parts)?;
    names.leave();
    shut_part(alloc, made, around, values)
}

/// `for initial .. end for`
#[cycle(lowered)]
fn initial(
    alloc: Global,
    forms: &Types,
    names: &mut Names,
    made: &mut Made,
    kind: &TypedKind,
    types: &[usize],
) -> Result<Seq<Wire>, NoMemory>
    requires { IsInitial kind.now }
    ensures made { IfOk result (λ ws. IsMade (kind_of forms.now kind.now types.now names.old.here) made.old made.new ws) }
    ensures names { OnOk result (names.new ≡ names.old) }
{
    let TypedKind::Initial(turns, firsts, test, defs, parts) = kind else {
        unreachable!()
    };
    let around = names.len();
    let clauses = turns.clauses.as_slice();
    let negated = unless_places(alloc, clauses)?;
    let flags = negated.as_slice();
    let results = parts.as_slice();
    let begun = begin(alloc, names, made, &[])?;
    let lets = firsts.as_slice();
    defined(alloc, forms, names, made, lets)?;
    let held = names_from(alloc, names, around)?;
    let count = held.len();
    let loops = held.as_slice();
    let own = turn_inputs(alloc, loops)?;
    let values = turned(
        alloc, forms, names, made, around, count, flags, held, results,
    )?;
    names.leave();
    let first = shut_part(alloc, made, begun, values)?;
    let named = own.as_slice();
    let tests = test.as_slice();
    let second = test_part(alloc, forms, names, made, named, turns.is_until, tests)?;
    let opened = begin(alloc, names, made, named)?;
    let start = names.len();
    let turn = defs.as_slice();
    defined(alloc, forms, names, made, turn)?;
    let next = renewed(alloc, names, start, turns, own)?;
    let sums = turned(
        alloc, forms, names, made, around, count, flags, next, results,
    )?;
    names.leave();
    let third = shut_part(alloc, made, opened, sums)?;
    let collects = collected(alloc, around, count, flags, results)?;
    let places = collects.as_slice();
    loop_node(alloc, made, turns, &first, &second, &third, places, types)
}
