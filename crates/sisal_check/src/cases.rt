//! `tagcase`.
ghost use Rattle.breaking_laws.specs.Broken.{Broken, BrokenIn};
ghost use Rattle.breaking_laws.specs.Parts.{AddsResults, BrokenArms, Differs, IsNoArm, IsNoUnion};
ghost use Rattle.breaking_laws.specs.Refusals.{Never};
ghost use Rattle.sisal_check.specs.Walked.{DiffersIn, arms_of, given_of, parts_of};
ghost use Rattle.std.specs.Prelude.{All, IfErr, IfOk, IfSome, IsSomeAnd, OnOk, [], false, length, true, ◌+◌, ◌<◌, ◌∷◌, ◌≡◌, ◌≤◌};
ghost use Rattle.type_rules.specs.Arms.{are_all_named};
ghost use Rattle.type_rules.specs.Faults.{IsRule};
ghost use Rattle.typed_tree.specs.Typing.{at};
ghost use Rattle.typing_laws.specs.Casing.{AddsArms, AddsLast, Begins, EntersArm, IsCase, Keeps, Suits, named_by};
ghost use Rattle.typing_laws.specs.Judged.{IsUsedIn, Typed};
ghost use Rattle.sisal_tree.specs.declared.expr.ExprKind.TheVariants as tree;
ghost use Rattle.text_trees.specs.Spelled.{IsArm, IsSpelled, IsTagCase, content_levels};

use crate::lists::{all, only};
use crate::state::{Given, Parts, Walk};
use flow_value::Seq;
use sisal_tree::{Arm, Expr, Named, TagCase};
use std::alloc::Global;
use type_rules::{Choices, TypeFault};
use type_table::{TypeNumbers, Types};
use typed_tree::{Case, TypedExpr, TypedKind};

/// The arms so far.
#[derive(Drop)]
struct Arms {
    /// The name of the content, where there is one.
    name: Option<u32>,
    /// Which tags they name.
    choices: Choices,
    /// Their results.
    results: Seq<Seq<TypedExpr>>,
    /// The types of the results of the first arm.
    types: Option<TypeNumbers>,
    /// Whether each arm has results of these types.
    is_even: bool,
}

/// A `tagcase`: rule 18, on its line, where its subject is no union, an arm has results of other
/// types than the first, or a tag has no arm and there is no `otherwise`.
#[inline(never)]
#[cycle(walk)]
pub(crate) fn tag_case(
    cases: &TagCase,
    line: u32,
    given: &Given<'_>,
    walk: &mut Walk,
) -> Result<TypedExpr, TypeFault>
    requires spelled { IsTagCase given.now.tokens.now (length given.now.spellings.now) walk.old.names.height cases.now }
    ensures used { OnOk result (IsUsedIn (given_of given.now) walk.old.types walk.new.types) }
    ensures names { OnOk result (walk.new.names ≡ walk.old.names) }
    ensures typed { IfOk result (λ t. Typed (given_of given.now) walk.new.types walk.old.names (at line (tree.TagCase cases.now)) t) }
    ensures line { IfOk result (λ t. t.line ≡ line) }
    ensures breaks { IfErr result (IsRule (λ rule at_line. Broken (given_of given.now) walk.old.types walk.old.names (at line (tree.TagCase cases.now)) rule at_line)) }
    ensures some { IfOk result (λ t. 1 ≤ length t.types) }
{
    let TagCase {
        name,
        subject,
        arms,
        otherwise,
    } = cases;
    let subject = only(subject.get(), given, walk)?;
    walk.types.holds();
    let mut done = begin(line, *name, &subject, given, walk)?;
    each_arm(arms.as_slice(), &mut done, given, walk)?;
    let count = done.results.len() as u32;
    walk.types.holds();
    match otherwise {
        Some(es) => last(es.as_slice(), &mut done, given, walk)?,
        None => name_all(line, &walk.types, &done)?,
    }
    walk.types.holds();
    case(given.alloc, line, count, subject, done)
}

/// No arms of the union that is the subject.
fn begin(
    line: u32,
    name: Option<u32>,
    subject: &Parts,
    given: &Given<'_>,
    walk: &Walk,
) -> Result<Arms, TypeFault>
    requires { length subject.now.types ≡ 1 }
    ensures begins { IfOk result (λ done. Begins walk.now.types name (parts_of subject.now) (arms_of done)) }
    ensures breaks { IfErr result (IsRule (λ rule at_line. IsNoUnion walk.now.types (parts_of subject.now) line rule at_line)) }
{
    let union = subject.types.as_slice()[0];
    match Choices::new(given.alloc, &walk.types, union) {
        Some(choices) => Ok(Arms {
            name,
            choices,
            results: Seq::new(given.alloc),
            types: None,
            is_even: true,
        }),
        None => Err(TypeFault::Rule { rule: 18, line }),
    }
}

#[cycle(walk)]
fn each_arm(
    arms: &[Arm],
    done: &mut Arms,
    given: &Given<'_>,
    walk: &mut Walk,
) -> Result<(), TypeFault>
    requires spelled { All (IsArm given.now.tokens.now (length given.now.spellings.now) (walk.old.names.height + content_levels done.old.name)) arms.now }
    requires room { walk.old.names.height + content_levels done.old.name ≤ 4294967295 }
    requires few { length done.old.results + length arms.now ≤ 4294967295 }
    ensures used { OnOk result (IsUsedIn (given_of given.now) walk.old.types walk.new.types) }
    ensures names { OnOk result (walk.new.names ≡ walk.old.names) }
    ensures adds { OnOk result (AddsArms (given_of given.now) walk.old.types walk.new.types walk.old.names arms.now (arms_of done.old) (arms_of done.new)) }
    ensures breaks { IfErr result (IsRule (λ rule at_line. BrokenArms (given_of given.now) walk.old.types walk.old.names arms.now (arms_of done.old) rule at_line)) }
    ensures results { OnOk result (AddsResults (given_of given.now) walk.old.types walk.new.types walk.old.names arms.now (arms_of done.old) (arms_of done.new)) }
    ensures some { OnOk result (IfSome done.old.types (λ ns. 1 ≤ length ns) → 1 ≤ length arms.now → IsSomeAnd done.new.types (λ ns. 1 ≤ length ns)) }
    ensures count { OnOk result (length done.new.results ≡ length done.old.results + length arms.now) }
{
    for arm in arms {
        one_arm(arm, done, given, walk)?;
    }
    Ok(())
}

/// The results of an arm, in which the content is in force where it has a name.
#[cycle(walk)]
fn one_arm(arm: &Arm, done: &mut Arms, given: &Given<'_>, walk: &mut Walk) -> Result<(), TypeFault>
    requires spelled { IsArm given.now.tokens.now (length given.now.spellings.now) (walk.old.names.height + content_levels done.old.name) arm.now }
    requires room { walk.old.names.height + content_levels done.old.name ≤ 4294967295 }
    requires few { length done.old.results < 4294967295 }
    ensures used { OnOk result (IsUsedIn (given_of given.now) walk.old.types walk.new.types) }
    ensures names { OnOk result (walk.new.names ≡ walk.old.names) }
    ensures adds { OnOk result (AddsArms (given_of given.now) walk.old.types walk.new.types walk.old.names (arm.now ∷ []) (arms_of done.old) (arms_of done.new)) }
    ensures breaks { IfErr result (IsRule (λ rule at_line. BrokenArms (given_of given.now) walk.old.types walk.old.names (arm.now ∷ []) (arms_of done.old) rule at_line)) }
    ensures results { OnOk result (AddsResults (given_of given.now) walk.old.types walk.new.types walk.old.names (arm.now ∷ []) (arms_of done.old) (arms_of done.new)) }
    ensures some { OnOk result (IfSome done.old.types (λ ns. 1 ≤ length ns) → IsSomeAnd done.new.types (λ ns. 1 ≤ length ns)) }
    ensures name { OnOk result (done.new.name ≡ done.old.name) }
    ensures count { OnOk result (length done.new.results ≡ length done.old.results + 1) }
{
    let Arm {
        line,
        tags,
        results,
    } = arm;
    let outer = walk.names.mark();
    walk.types.holds();
    enter(tags.as_slice(), *line, done, walk)?;
    let results = all(results.as_slice(), given, walk)?;
    walk.names.leave(outer);
    keep(results, done)
}

/// The results of the tags that no arm names.
#[cycle(walk)]
fn last(es: &[Expr], done: &mut Arms, given: &Given<'_>, walk: &mut Walk) -> Result<(), TypeFault>
    requires spelled { All (IsSpelled given.now.tokens.now (length given.now.spellings.now) walk.old.names.height) es.now }
    ensures used { OnOk result (IsUsedIn (given_of given.now) walk.old.types walk.new.types) }
    ensures names { OnOk result (walk.new.names ≡ walk.old.names) }
    ensures adds { OnOk result (AddsLast (given_of given.now) walk.new.types walk.old.names es.now (arms_of done.old) (arms_of done.new)) }
    ensures uneven { OnOk result (DiffersIn (given_of given.now) walk.new.types walk.old.names es.now (arms_of done.old) (arms_of done.new)) }
    ensures breaks { IfErr result (IsRule (λ rule at_line. BrokenIn (given_of given.now) walk.old.types walk.old.names es.now rule at_line)) }
{
    let results = all(es, given, walk)?;
    keep(results, done)
}

/// Brings the content of these tags into force, where it has a name.
fn enter(tags: &[Named], line: u32, done: &mut Arms, walk: &mut Walk) -> Result<(), TypeFault>
    requires some { 1 ≤ length tags.now }
    requires room { walk.old.names.height + content_levels done.old.name ≤ 4294967295 }
    requires few { length done.old.results < 4294967295 }
    ensures types { walk.new.types ≡ walk.old.types }
    ensures enters { OnOk result (EntersArm walk.old.types line tags.now (arms_of done.old) (arms_of done.new) walk.old.names walk.new.names) }
    ensures breaks { IfErr result (IsRule (λ rule at_line. IsNoArm walk.old.types line tags.now (arms_of done.old) rule at_line)) }
{
    let place = done.results.len() as u32;
    let content = done.choices.arm(&walk.types, tags, place, line)?;
    if let Some(name) = done.name {
        walk.names.define(name, content)?;
    }
    Ok(())
}

/// Adds the results of an arm.
fn keep(results: Parts, done: &mut Arms) -> Result<(), TypeFault>
    ensures keeps { OnOk result (Keeps results.exprs results.types (arms_of done.old) (arms_of done.new)) }
    ensures uneven { OnOk result (Differs results.types (arms_of done.old) (arms_of done.new)) }
    ensures breaks { IfErr result (IsRule (λ rule at_line. Never rule at_line)) }
{
    let Parts { exprs, types } = results;
    done.results.add(exprs)?;
    suit(types, done);
    Ok(())
}

/// Whether the types are those of the first arm; those of the first one are kept.
fn suit(types: TypeNumbers, done: &mut Arms)
    ensures suits { Suits types (arms_of done.old) (arms_of done.new) }
    ensures uneven { Differs types (arms_of done.old) (arms_of done.new) }
{
    match &done.types {
        Some(first) => {
            if first.as_slice() != types.as_slice() {
                done.is_even = false;
            }
        }
        None => {
            done.types = Some(types);
        }
    }
}

/// Tests that each tag has an arm.
fn name_all(line: u32, types: &Types, done: &Arms) -> Result<(), TypeFault>
    ensures named { OnOk result (are_all_named types.now done.now.choices.union done.now.choices.arms.entries ≡ true) }
    ensures breaks { IfErr result (IsRule (λ rule at_line. (rule ≡ 18) × (at_line ≡ line) × (are_all_named types.now done.now.choices.union done.now.choices.arms.entries ≡ false))) }
{
    if done.choices.are_all_named(types) {
        Ok(())
    } else {
        Err(TypeFault::Rule { rule: 18, line })
    }
}

/// The typed tree of so many arms and `otherwise`.
fn case(
    alloc: Global,
    line: u32,
    count: u32,
    subject: Parts,
    done: Arms,
) -> Result<TypedExpr, TypeFault>
    requires { IsSomeAnd done.types (λ ns. 1 ≤ length ns) }
    ensures is { IfOk result (λ t. IsCase line count (parts_of subject) (arms_of done) t) }
    ensures breaks { IfErr result (IsRule (λ rule at_line. (rule ≡ 18) × (at_line ≡ line) × (done.is_even ≡ false))) }
    ensures some { IfOk result (λ t. 1 ≤ length t.types) }
{
    let Arms {
        name,
        choices,
        results,
        types,
        is_even,
    } = done;
    if !is_even {
        return Err(TypeFault::Rule { rule: 18, line });
    }
    let Some(types) = types else { unreachable!() };
    let case = Case {
        named: named_arms(name, count),
        choices: choices.into_choices(alloc)?,
        others: count,
    };
    Ok(TypedExpr {
        line,
        types,
        kind: TypedKind::Case(case, subject.exprs, results),
    })
}

/// In how many of the arms the content is in force.
fn named_arms(name: Option<u32>, count: u32) -> u32
    ensures { result ≡ named_by name count }
{
    match name {
        Some(_) => count,
        None => 0,
    }
}
