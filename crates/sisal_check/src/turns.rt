//! The turns of a `for initial`.
ghost use Rattle.breaking_laws.specs.Parts.{BrokenRenewing, BrokenTurn, IsNoTruth};
ghost use Rattle.sisal_check.specs.Walked.{defined_of, given_of, turned_of};
ghost use Rattle.std.specs.Prelude.{All, IfErr, IfOk, OnOk, [], length, min, ◌+◌, ◌∷◌, ◌≡◌, ◌≤◌};
ghost use Rattle.type_rules.specs.Faults.{IsRule};
ghost use Rattle.typing_laws.specs.Defining.{targets_in};
ghost use Rattle.typing_laws.specs.Judged.{IsUsedIn};
ghost use Rattle.typing_laws.specs.Looping.{AllRenewed, IsAround, TurnTyped};
ghost use Rattle.typing_laws.specs.Turns.{AreBelow, in_turn, loop_names, renewals};
ghost use Rattle.text_trees.specs.Spelled.{AreDefs, IsTurn};

use crate::defs::{Defined, defs, targets_of};
use crate::lists::only;
use crate::making::is_boolean;
use crate::state::{Given, Parts, Walk};
use flow_value::{NoMemory, Seq};
use sisal_tree::{Def, Turn};
use type_rules::TypeFault;
use typed_tree::TypedExpr;

/// The turn of a loop with its test.
#[derive(Drop)]
pub(crate) struct Turned {
    /// Whether the test stands before the turn.
    pub is_first: bool,
    /// Whether the loop goes on until the test holds.
    pub is_until: bool,
    /// The test.
    pub test: Seq<TypedExpr>,
    /// For each name of the turn the place of the loop name that it renews, if it is one.
    pub renewed: Seq<Option<u32>>,
    /// The values of each definition of the turn.
    pub exprs: Seq<Seq<TypedExpr>>,
}

/// The definitions of a turn.
#[derive(Drop)]
struct Renewing {
    renewed: Seq<Option<u32>>,
    exprs: Seq<Seq<TypedExpr>>,
}

/// Types the turn of a loop on a line, whose loop names have levels from `first` on. The
/// test sees the loop names, and none that the turn defines.
#[cycle(walk)]
pub(crate) fn turn_of(
    turn: &Turn,
    line: u32,
    first: u32,
    started: &Defined,
    given: &Given<'_>,
    walk: &mut Walk,
) -> Result<Turned, TypeFault>
    requires fits { first + min (length started.now.targets) (length started.now.types) ≤ walk.old.names.height }
    requires spelled { IsTurn given.now.tokens.now (length given.now.spellings.now) walk.old.names.height turn.now }
    ensures used { OnOk result (IsUsedIn (given_of given.now) walk.old.types walk.new.types) }
    ensures names { OnOk result (walk.new.names ≡ walk.old.names) }
    ensures typed { IfOk result (λ t. TurnTyped (given_of given.now) walk.new.types walk.old.names first (defined_of started.now) turn.now (turned_of t)) }
    ensures breaks { IfErr result (IsRule (λ rule at_line. BrokenTurn (given_of given.now) walk.old.types walk.old.names first (defined_of started.now) line turn.now rule at_line)) }
{
    let Turn {
        is_first,
        is_until,
        test,
        defs,
    } = turn;
    if *is_first {
        let tests = only(test.get(), given, walk)?;
        walk.types.holds();
        let test = truth(line, tests)?;
        let renewing = turn_defs(defs.as_slice(), first, started, given, walk)?;
        Ok(whole(true, *is_until, test, renewing))
    } else {
        let renewing = turn_defs(defs.as_slice(), first, started, given, walk)?;
        let tests = only(test.get(), given, walk)?;
        walk.types.holds();
        let test = truth(line, tests)?;
        Ok(whole(false, *is_until, test, renewing))
    }
}

/// The test of a loop on a line: rule 23, on that line, where it is no boolean.
#[inline(never)]
fn truth(line: u32, tests: Parts) -> Result<Seq<TypedExpr>, TypeFault>
    ensures exprs { IfOk result (λ exprs. exprs ≡ tests.exprs) }
    ensures truth { OnOk result (tests.types ≡ 0 ∷ []) }
    ensures breaks { IfErr result (IsRule (λ rule at_line. IsNoTruth tests.types line rule at_line)) }
{
    if !is_boolean(&tests) {
        return Err(TypeFault::Rule { rule: 23, line });
    }
    let Parts { exprs, .. } = tests;
    Ok(exprs)
}

/// The turn with its test.
#[inline(never)]
fn whole(is_first: bool, is_until: bool, test: Seq<TypedExpr>, renewing: Renewing) -> Turned
    ensures { turned_of result ≡ record { is_first = is_first; is_until = is_until; test = test; renewed = renewing.renewed; exprs = renewing.exprs } }
{
    let Renewing { renewed, exprs } = renewing;
    Turned {
        is_first,
        is_until,
        test,
        renewed,
        exprs,
    }
}

/// Types the definitions of a turn, whose names are in force in it alone.
#[cycle(walk)]
fn turn_defs(
    ds: &[Def],
    first: u32,
    started: &Defined,
    given: &Given<'_>,
    walk: &mut Walk,
) -> Result<Renewing, TypeFault>
    requires fits { first + min (length started.now.targets) (length started.now.types) ≤ walk.old.names.height }
    requires spelled { AreDefs given.now.tokens.now (length given.now.spellings.now) walk.old.names.height ds.now }
    ensures used { OnOk result (IsUsedIn (given_of given.now) walk.old.types walk.new.types) }
    ensures names { OnOk result (walk.new.names ≡ walk.old.names) }
    ensures renewed { IfOk result (λ r. AllRenewed (given_of given.now) walk.new.types walk.old.names first (defined_of started.now) ds.now r.renewed r.exprs) }
    ensures breaks { IfErr result (IsRule (λ rule at_line. BrokenRenewing (given_of given.now) walk.old.types walk.old.names first (defined_of started.now) ds.now rule at_line)) }
{
    let outer = walk.names.mark();
    let renewed = begin(ds, first, started, given, walk)?;
    let defined = defs(ds, Some(first), given, walk)?;
    walk.names.leave(outer);
    Ok(Renewing {
        renewed,
        exprs: defined.exprs,
    })
}

/// A turn begins: for each name that it defines the place of the loop name that it renews, if it
/// is one.
#[inline(never)]
fn begin(
    ds: &[Def],
    first: u32,
    started: &Defined,
    given: &Given<'_>,
    walk: &mut Walk,
) -> Result<Seq<Option<u32>>, NoMemory>
    requires fits { first + min (length started.now.targets) (length started.now.types) ≤ walk.old.names.height }
    ensures types { walk.new.types ≡ walk.old.types }
    ensures around { OnOk result (IsAround walk.old.names walk.new.names) }
    ensures height { OnOk result (walk.new.names.height ≡ walk.old.names.height) }
    ensures names { OnOk result (AreBelow first walk.old.names.olds → walk.new.names ≡ in_turn (loop_names first started.now.targets started.now.types) (targets_in ds.now) walk.old.names) }
    ensures renewed { IfOk result (λ places. AreBelow first walk.old.names.olds → places ≡ renewals first (loop_names first started.now.targets started.now.types) (targets_in ds.now)) }
{
    let targets = targets_of(given.alloc, ds)?;
    walk.names.begin_turn(
        started.targets.as_slice(),
        started.types.as_slice(),
        first,
        targets.as_slice(),
    )?;
    walk.names.renewed(given.alloc, targets.as_slice(), first)
}
