//! Definitions.
ghost use Rattle.breaking_laws.specs.Parts.{BrokenDefs, BrokenTargets, StandsTwice};
ghost use Rattle.sisal_check.specs.Walked.{defined_of, given_of};
ghost use Rattle.std.specs.Prelude.{All, IfErr, IfOk, None, OnOk, Option, [], length, ℕ, ◌++◌, ◌+◌, ◌∷◌, ◌≡◌, ◌≢◌, ◌≤◌};
ghost use Rattle.type_rules.specs.Faults.{IsRule};
ghost use Rattle.typed_tree.specs.Scopes.{AreDistinct, targets};
ghost use Rattle.typed_tree.specs.Typing.{names_in};
ghost use Rattle.typing_laws.specs.Defining.{AddsDef, AllDefined, AreDeclaredAs, Enters, IsDeclaredAs, KeepsTurn, named_targets, targets_in};
ghost use Rattle.typing_laws.specs.Judged.{IsUsedIn};
ghost use Rattle.value_names.specs.Scopes.{twice_in};
ghost use Rattle.typed_tree.specs.Breaks.{line_of as first_line};
ghost use Rattle.typing_laws.specs.Given.{Given as LawGiven};
ghost use Rattle.text_trees.specs.Spelled.{AreDefs, IsDef, IsTarget, IsTypeIf, defs_levels};

use crate::lists::all;
use crate::state::{Given, Parts, Walk};
use flow_value::{NoMemory, Seq};
use sisal_tree::{Def, Named, Target};
use std::alloc::Global;
use type_rules::TypeFault;
use type_table::TypeNumbers;
use typed_tree::TypedExpr;
use unit_types::denoted;

/// A list of definitions.
#[derive(Drop)]
pub(crate) struct Defined {
    /// The values of each definition.
    pub exprs: Seq<Seq<TypedExpr>>,
    /// What is defined, in order.
    pub targets: Seq<Named>,
    /// The types of all that is defined.
    pub types: TypeNumbers,
}

/// Types definitions in order, each of which sees the earlier ones, and brings their names into
/// force. Rule 8, on its line, at a name that stands twice; rule 14, on the line of the
/// definition's first target, at another number of values than of targets and at a value of
/// another type than is declared. In a turn of a loop, whose first name has the level `turn`, rule
/// 23, on that line, at a loop name that gets a value of another type.
#[cycle(walk)]
pub(crate) fn defs(
    ds: &[Def],
    turn: Option<u32>,
    given: &Given<'_>,
    walk: &mut Walk,
) -> Result<Defined, TypeFault>
    requires spelled { AreDefs given.now.tokens.now (length given.now.spellings.now) walk.old.names.height ds.now }
    ensures used { OnOk result (IsUsedIn (given_of given.now) walk.old.types walk.new.types) }
    ensures typed { IfOk result (λ d. AllDefined (given_of given.now) walk.new.types walk.old.names walk.new.names turn ds.now d.exprs d.types) }
    ensures targets { IfOk result (λ d. d.targets ≡ targets_in ds.now) }
    ensures distinct { OnOk result (AreDistinct (targets ds.now)) }
    ensures breaks { IfErr result (IsRule (λ rule at_line. BrokenDefs (given_of given.now) walk.old.types walk.old.names turn ds.now rule at_line)) }
    ensures height { IfOk result (λ d. walk.new.names.height ≡ walk.old.names.height + length d.types) }
    ensures levels { IfOk result (λ d. length d.types ≡ defs_levels ds.now) }
{
    let targets = targets_of(given.alloc, ds)?;
    walk.types.holds();
    distinct(targets.as_slice(), walk)?;
    let mut defined = Defined {
        exprs: Seq::new(given.alloc),
        targets,
        types: Seq::new(given.alloc),
    };
    for d in ds {
        def(d, turn, &mut defined, given, walk)?;
    }
    Ok(defined)
}

#[cycle(walk)]
fn def(
    d: &Def,
    turn: Option<u32>,
    defined: &mut Defined,
    given: &Given<'_>,
    walk: &mut Walk,
) -> Result<(), TypeFault>
    requires spelled { IsDef given.now.tokens.now (length given.now.spellings.now) walk.old.names.height d.now }
    ensures used { OnOk result (IsUsedIn (given_of given.now) walk.old.types walk.new.types) }
    ensures adds { OnOk result (AddsDef (given_of given.now) walk.new.types walk.old.names walk.new.names turn d.now (defined_of defined.old) (defined_of defined.new)) }
    ensures breaks { IfErr result (IsRule (λ rule at_line. BrokenDefs (given_of given.now) walk.old.types walk.old.names turn (d.now ∷ []) rule at_line)) }
{
    let Def { targets, values } = d;
    let values = all(values.as_slice(), given, walk)?;
    enter(targets.as_slice(), values, turn, defined, given, walk)
}

/// The targets of definitions, in order.
pub(crate) fn targets_of(alloc: Global, ds: &[Def]) -> Result<Seq<Named>, NoMemory>
    ensures { IfOk result (λ names. names ≡ targets_in ds.now) }
{
    let mut names = Seq::new(alloc);
    for d in ds {
        add_targets(d.targets.as_slice(), &mut names)?;
    }
    Ok(names)
}

fn add_targets(targets: &[Target], names: &mut Seq<Named>) -> Result<(), NoMemory>
    ensures { OnOk result (names.new ≡ names.old ++ named_targets targets.now) }
{
    for target in targets {
        names.add(target.name)?;
    }
    Ok(())
}

/// Rule 8 at the first name that stands before it in the list.
pub(crate) fn distinct(names: &[Named], walk: &mut Walk) -> Result<(), TypeFault>
    ensures types { walk.new.types ≡ walk.old.types }
    ensures names { walk.new.names ≡ walk.old.names }
    ensures once { OnOk result (twice_in names.now ≡ None) }
    ensures breaks { IfErr result (IsRule (λ rule at_line. StandsTwice names.now rule at_line)) }
{
    match walk.names.first_twice(names)? {
        Some(line) => Err(TypeFault::Rule { rule: 8, line }),
        None => Ok(()),
    }
}

/// Brings the targets of a definition into force with these values.
fn enter(
    targets: &[Target],
    values: Parts,
    turn: Option<u32>,
    defined: &mut Defined,
    given: &Given<'_>,
    walk: &mut Walk,
) -> Result<(), TypeFault>
    requires some { 1 ≤ length targets.now }
    requires spelled { All (IsTarget given.now.tokens.now (length given.now.spellings.now)) targets.now }
    requires room { walk.old.names.height + length targets.now ≤ 4294967295 }
    ensures used { OnOk result (IsUsedIn (given_of given.now) walk.old.types walk.new.types) }
    ensures enters { OnOk result (Enters (given_of given.now) walk.new.types walk.old.names walk.new.names turn targets.now values.exprs values.types (defined_of defined.old) (defined_of defined.new)) }
    ensures breaks { IfErr result (IsRule (λ rule at_line. BrokenTargets (given_of given.now) walk.old.types walk.old.names turn (first_line targets.now) targets.now values.types rule at_line)) }
{
    let Parts { exprs, types } = values;
    let line = line_of(targets);
    walk.types.holds();
    if types.len() != targets.len() {
        return Err(TypeFault::Rule { rule: 14, line });
    }
    suit(targets, types.as_slice(), line, turn, given, walk)?;
    let mut names = Seq::new(given.alloc);
    add_targets(targets, &mut names)?;
    walk.names.define_all(names.as_slice(), types.as_slice())?;
    defined.types.extend(types.as_slice())?;
    defined.exprs.add(exprs)?;
    Ok(())
}

/// The line of the first target.
fn line_of(targets: &[Target]) -> u32
    requires { 1 ≤ length targets.now }
    ensures { result ≡ first_line targets.now }
{
    match targets {
        [first, ..] => first.name.line,
        [] => unreachable!(),
    }
}

/// Tests that each target may have a value of its type.
fn suit(
    targets: &[Target],
    types: &[usize],
    line: u32,
    turn: Option<u32>,
    given: &Given<'_>,
    walk: &mut Walk,
) -> Result<(), TypeFault>
    requires spelled { All (IsTarget given.now.tokens.now (length given.now.spellings.now)) targets.now }
    ensures used { OnOk result (IsUsedIn (given_of given.now) walk.old.types walk.new.types) }
    ensures names { OnOk result (walk.new.names ≡ walk.old.names) }
    ensures declared { OnOk result (AreDeclaredAs (given_of given.now) walk.new.types targets.now types.now) }
    ensures kept { OnOk result (KeepsTurn turn walk.old.names (names_in targets.now) types.now) }
    ensures breaks { IfErr result (IsRule (λ rule at_line. BrokenTargets (given_of given.now) walk.old.types walk.old.names turn line targets.now types.now rule at_line)) }
{
    let mut place = 0;
    while place < targets.len() && place < types.len() {
        has_type(targets[place], types[place], line, given, walk)?;
        keeps_type(targets[place], types[place], line, turn, walk)?;
        place += 1;
    }
    Ok(())
}

/// Tests that the type that is declared for a target is that of its value.
fn has_type(
    target: Target,
    ty: usize,
    line: u32,
    given: &Given<'_>,
    walk: &mut Walk,
) -> Result<(), TypeFault>
    requires { IsTypeIf given.now.tokens.now target.ty }
    ensures used { OnOk result (IsUsedIn (given_of given.now) walk.old.types walk.new.types) }
    ensures names { OnOk result (walk.new.names ≡ walk.old.names) }
    ensures declared { OnOk result (IsDeclaredAs (given_of given.now) walk.new.types target.ty ty) }
    ensures breaks { IfErr result (IsRule (λ rule at_line. (turn : Option ℕ) → BrokenTargets (given_of given.now) walk.old.types walk.old.names turn line (target ∷ []) (ty ∷ []) rule at_line)) }
{
    let Some(written) = target.ty else {
        return Ok(());
    };
    walk.types.holds();
    let declared = denoted(
        given.alloc,
        given.tokens,
        written,
        given.named,
        given.known,
        &mut walk.types,
    )?;
    walk.types.holds();
    if declared != ty {
        return Err(TypeFault::Rule { rule: 14, line });
    }
    Ok(())
}

/// Tests that a target that is a loop name keeps its type in a turn.
fn keeps_type(
    target: Target,
    ty: usize,
    line: u32,
    turn: Option<u32>,
    walk: &Walk,
) -> Result<(), TypeFault>
    ensures kept { OnOk result (KeepsTurn turn walk.now.names (target.name.name ∷ []) (ty ∷ [])) }
    ensures breaks { IfErr result (IsRule (λ rule at_line. (g : LawGiven) → BrokenTargets g walk.now.types walk.now.names turn line (target ∷ []) (ty ∷ []) rule at_line)) }
{
    let Some(first) = turn else {
        return Ok(());
    };
    walk.types.holds();
    match walk.names.loop_value(target.name.name, first) {
        Some(before) => is_kept(before.ty, ty, line),
        None => Ok(()),
    }
}

fn is_kept(before: usize, ty: usize, line: u32) -> Result<(), TypeFault>
    ensures kept { OnOk result (ty ≡ before) }
    ensures breaks { IfErr result (IsRule (λ rule at_line. (rule ≡ 23) × (at_line ≡ line) × (before ≢ ty))) }
{
    if before != ty {
        return Err(TypeFault::Rule { rule: 23, line });
    }
    Ok(())
}
