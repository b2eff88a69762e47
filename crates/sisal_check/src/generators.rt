//! Generators: SISAL Language Reference Manual 1.2, `for`.
ghost use Rattle.breaking_laws.specs.Parts.{BrokenGenerator, BrokenGroup, BrokenGroups, HasNoSource, StandsTwice};
ghost use Rattle.sisal_check.specs.Walked.{given_of, group_of, parts_of};
ghost use Rattle.sisal_tree.specs.declared.expr.Generator.{out-Generator};
ghost use Rattle.std.specs.Prelude.{All, Err, IfErr, IfOk, List, None, Ok, OnOk, [], is_some, length, map, ◌++◌, ◌+◌, ◌∷◌, ◌≡◌, ◌≤◌, ◌⊎◌};
ghost use Rattle.type_rules.specs.Faults.{IsRule};
ghost use Rattle.type_rules.specs.Parts.{sequence_at};
ghost use Rattle.typing_laws.specs.Judged.{IsUsedIn};
ghost use Rattle.typing_laws.specs.Looping.{AddsGenerator, GoesOver, GroupTyped, GroupsTyped, IsElement, KeepsGenerator, index_names, index_types};
ghost use Rattle.value_names.specs.Scopes.{define_all, twice_in};
ghost use Rattle.text_trees.specs.Spelled.{AreGroups, IsGenerator, group_levels, groups_levels};

use crate::defs::distinct;
use crate::lists::one;
use crate::state::{Given, Parts, Walk};
use flow_value::{NoMemory, Seq};
use sisal_tree::{Generator, Named};
use std::alloc::Global;
use type_rules::{TypeFault, element_of};
use type_table::{INTEGER, TypeNumbers, Types};
use typed_tree::{Source, TypedExpr};

/// A group of generators that go on together.
#[derive(Drop)]
pub(crate) struct Group {
    /// What each of them goes over.
    pub sources: Seq<Source>,
    /// Their bounds.
    pub bounds: Seq<TypedExpr>,
    /// Their names, an index behind its element.
    names: Seq<Named>,
    /// The types of these.
    types: TypeNumbers,
}

/// Types groups of generators, each of which sees the names of those before it, and brings their
/// names into force.
#[cycle(walk)]
pub(crate) fn groups(
    gs: &[Seq<Generator>],
    given: &Given<'_>,
    walk: &mut Walk,
) -> Result<Seq<Group>, TypeFault>
    requires spelled { AreGroups given.now.tokens.now (length given.now.spellings.now) walk.old.names.height gs.now }
    ensures used { OnOk result (IsUsedIn (given_of given.now) walk.old.types walk.new.types) }
    ensures typed { IfOk result (λ goes. GroupsTyped (given_of given.now) walk.new.types walk.old.names gs.now (map group_of goes) walk.new.names) }
    ensures breaks { IfErr result (IsRule (λ rule at_line. BrokenGroups (given_of given.now) walk.old.types walk.old.names gs.now rule at_line)) }
    ensures height { IfOk result (λ _. walk.new.names.height ≡ walk.old.names.height + groups_levels gs.now) }
{
    let mut goes = Seq::new(given.alloc);
    for g in gs {
        let made = one_group(g, given, walk)?;
        goes.add(made)?;
    }
    Ok(goes)
}

/// Types a group of generators, which see none of each other: rule 8, on its line, at a generator
/// with a name that stands before it in the group. So a fault in a later one waits until the names
/// before it were looked at.
#[cycle(walk)]
fn one_group(gs: &Seq<Generator>, given: &Given<'_>, walk: &mut Walk) -> Result<Group, TypeFault>
    requires spelled { All (IsGenerator given.now.tokens.now (length given.now.spellings.now) walk.old.names.height) gs.now }
    requires room { walk.old.names.height + group_levels gs.now ≤ 4294967295 }
    ensures used { OnOk result (IsUsedIn (given_of given.now) walk.old.types walk.new.types) }
    ensures typed { IfOk result (λ m. GroupTyped (given_of given.now) walk.new.types walk.old.names gs.now (group_of m)) }
    ensures names { IfOk result (λ m. walk.new.names ≡ define_all m.names m.types walk.old.names) }
    ensures breaks { IfErr result (IsRule (λ rule at_line. BrokenGroup (given_of given.now) walk.old.types walk.old.names gs.now rule at_line)) }
    ensures height { IfOk result (λ _. walk.new.names.height ≡ walk.old.names.height + group_levels gs.now) }
{
    let mut made = no_generators(given.alloc);
    for g in gs.as_slice() {
        walk.types.holds();
        let gone = generator(g, &mut made, given, walk);
        look_back(gone, &made, walk)?;
    }
    walk.types.holds();
    enter(made, walk)
}

/// Types a generator: rule 22, on its line, at an index of a range, at bounds that are no integers,
/// and at what has no elements.
#[cycle(walk)]
fn generator(
    g: &Generator,
    made: &mut Group,
    given: &Given<'_>,
    walk: &mut Walk,
) -> Result<(), TypeFault>
    requires spelled { IsGenerator given.now.tokens.now (length given.now.spellings.now) walk.old.names.height g.now }
    ensures used { OnOk result (IsUsedIn (given_of given.now) walk.old.types walk.new.types) }
    ensures names { OnOk result (walk.new.names ≡ walk.old.names) }
    ensures adds { OnOk result (AddsGenerator (given_of given.now) walk.old.types walk.new.types walk.old.names g.now (group_of made.old) (group_of made.new)) }
    ensures gained { OnOk result (made.new.names ≡ made.old.names ++ ((out-Generator g.now).name ∷ index_names (out-Generator g.now).at (out-Generator g.now).name.line)) }
    ensures even { OnOk result (length made.old.types ≡ length made.old.names → length made.new.types ≡ length made.new.names) }
    ensures breaks { IfErr result (IsRule (λ rule at_line. BrokenGenerator (given_of given.now) walk.old.types walk.old.names g.now rule at_line)) }
    ensures front { (more : List Named) × (made.old.names ++ ((out-Generator g.now).name ∷ index_names (out-Generator g.now).at (out-Generator g.now).name.line) ≡ made.new.names ++ more) }
{
    let Generator { name, from, to, at } = g;
    let mut bounds = Parts::new(given.alloc);
    one(from, &mut bounds, given, walk)?;
    match to {
        Some(to) => {
            one(to, &mut bounds, given, walk)?;
            walk.types.holds();
            keep(*name, *at, bounds, made, walk)
        }
        None => {
            walk.types.holds();
            keep(*name, *at, bounds, made, walk)
        }
    }
}

/// Where a generator has a fault: rule 8 at a name of those before it that stands twice, else that
/// fault.
fn look_back(gone: Result<(), TypeFault>, made: &Group, walk: &mut Walk) -> Result<(), TypeFault>
    ensures types { walk.new.types ≡ walk.old.types }
    ensures names { walk.new.names ≡ walk.old.names }
    ensures gone { OnOk result (gone ≡ Ok tt) }
    ensures breaks { IfErr result (IsRule (λ rule at_line. (StandsTwice made.now.names rule at_line) ⊎ (gone ≡ Err (TypeFault.Rule rule at_line)))) }
{
    let Err(fault) = gone else {
        return Ok(());
    };
    distinct(made.names.as_slice(), walk)?;
    Err(fault)
}

/// Brings the names of a group into force: rule 8 at one that stands twice.
fn enter(made: Group, walk: &mut Walk) -> Result<Group, TypeFault>
    requires { walk.old.names.height + length made.names ≤ 4294967295 }
    ensures types { walk.new.types ≡ walk.old.types }
    ensures same { IfOk result (λ m. m ≡ made) }
    ensures once { OnOk result (twice_in made.names ≡ None) }
    ensures names { OnOk result (walk.new.names ≡ define_all made.names made.types walk.old.names) }
    ensures breaks { IfErr result (IsRule (λ rule at_line. StandsTwice made.names rule at_line)) }
{
    distinct(made.names.as_slice(), walk)?;
    walk.names
        .define_all(made.names.as_slice(), made.types.as_slice())?;
    Ok(made)
}

/// A group without generators; takes no memory.
fn no_generators(alloc: Global) -> Group
    ensures { group_of result ≡ record { sources = []; bounds = []; names = []; types = [] } }
{
    Group {
        sources: Seq::new(alloc),
        bounds: Seq::new(alloc),
        names: Seq::new(alloc),
        types: Seq::new(alloc),
    }
}

/// Adds a generator with its bounds to a group.
fn keep(
    name: Named,
    at: Option<u32>,
    bounds: Parts,
    made: &mut Group,
    walk: &Walk,
) -> Result<(), TypeFault>
    ensures keeps { OnOk result (KeepsGenerator walk.now.types name at (parts_of bounds) (group_of made.old) (group_of made.new)) }
    ensures breaks { IfErr result (IsRule (λ rule at_line. HasNoSource walk.now.types bounds.types (is_some at) name.line rule at_line)) }
    ensures front { (more : List Named) × (made.old.names ++ (name ∷ index_names at name.line) ≡ made.new.names ++ more) }
{
    let Parts { exprs, types } = bounds;
    let (source, ty) = goes_over(types.as_slice(), at.is_some(), name.line, &walk.types)?;
    made.sources.add(source)?;
    append(exprs, &mut made.bounds)?;
    made.names.add(name)?;
    made.types.add(ty)?;
    keep_index(at, name.line, made)?;
    Ok(())
}

/// Adds the index of a generator on a line, where it has a name.
fn keep_index(at: Option<u32>, line: u32, made: &mut Group) -> Result<(), NoMemory>
    ensures names { OnOk result (made.new.names ≡ made.old.names ++ index_names at line) }
    ensures types { OnOk result (made.new.types ≡ made.old.types ++ index_types at) }
    ensures sources { made.new.sources ≡ made.old.sources }
    ensures bounds { made.new.bounds ≡ made.old.bounds }
    ensures front { (more : List Named) × (made.old.names ++ index_names at line ≡ made.new.names ++ more) }
{
    let Some(name) = at else {
        return Ok(());
    };
    made.names.add(Named { name, line })?;
    made.types.add(INTEGER)
}

/// What a generator with bounds of these types goes over, and the type of its name.
fn goes_over(
    bounds: &[usize],
    has_index: bool,
    line: u32,
    types: &Types,
) -> Result<(Source, usize), TypeFault>
    ensures over { IfOk result (λ r. GoesOver types.now bounds.now has_index r.0 r.1) }
    ensures breaks { IfErr result (IsRule (λ rule at_line. HasNoSource types.now bounds.now has_index line rule at_line)) }
{
    match bounds {
        [ty] => elements(*ty, has_index, line, types),
        [INTEGER, INTEGER] if !has_index => Ok((Source::Range, INTEGER)),
        _ => Err(TypeFault::Rule { rule: 22, line }),
    }
}

/// What a generator over an array or a stream goes over, and the type of its elements.
fn elements(
    ty: usize,
    has_index: bool,
    line: u32,
    types: &Types,
) -> Result<(Source, usize), TypeFault>
    ensures element { IfOk result (λ r. IsElement types.now ty has_index r.0 r.1) }
    ensures breaks { IfErr result (IsRule (λ rule at_line. (rule ≡ 22) × (at_line ≡ line) × (sequence_at types.now ty ≡ None))) }
{
    let Some(element) = element_of(types, ty) else {
        return Err(TypeFault::Rule { rule: 22, line });
    };
    if has_index {
        Ok((Source::Indexed, element))
    } else {
        Ok((Source::Elements, element))
    }
}

/// Moves expressions to the end of a list.
fn append(more: Seq<TypedExpr>, exprs: &mut Seq<TypedExpr>) -> Result<(), NoMemory>
    ensures { OnOk result (exprs.new ≡ exprs.old ++ more) }
{
    match exprs.append(more) {
        Ok(()) => Ok(()),
        Err(_) => Err(NoMemory),
    }
}
