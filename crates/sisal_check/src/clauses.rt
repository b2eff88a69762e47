//! Clauses of loops: SISAL Language Reference Manual 1.2, `returns`.
ghost use Rattle.breaking_laws.specs.Parts.{BrokenMade, BrokenValues, EndsFalse};
ghost use Rattle.sisal_check.specs.Walked.{folds_of, given_of, parts_of};
ghost use Rattle.std.specs.Prelude.{All, IfErr, IfOk, OnOk, [], false, length, suc, true, ℕ, ◌++◌, ◌+◌, ◌∷◌, ◌≡◌, ◌≢◌, ◌≤◌, ◌⊎◌};
ghost use Rattle.type_rules.specs.Faults.{IsRule};
ghost use Rattle.typing_laws.specs.Judged.{Adds, IsUsedIn};
ghost use Rattle.typing_laws.specs.Looping.{AllMade, AllValues, FoldAdded, mask_of};
ghost use Rattle.typing_laws.specs.Given.{Given as LawGiven};
ghost use Rattle.type_rules.specs.declared.fault.Refused.TheVariants as Refused;
ghost use Rattle.text_trees.specs.Spelled.{IsClause};

use crate::lists::one;
use crate::state::{Given, Parts, Walk};
use flow_value::{NoMemory, Seq};
use sisal_tree::Clause;
use type_rules::{Made, Refused, TypeFault, clause};
use type_table::{BOOLEAN, TypeNumbers};
use typed_tree::ClauseForm;

// The rule of types that are too deep.
const DEEP: u8 = 4;

/// What clauses make of values.
#[derive(Drop)]
pub(crate) struct Folds {
    /// Their forms.
    pub forms: Seq<ClauseForm>,
    /// The types that they make.
    pub types: TypeNumbers,
    /// Whether one of these would be too deep.
    is_deep: bool,
}

/// Types the values of clauses, each with its mask behind it; the types are those of the values
/// alone.
#[cycle(walk)]
pub(crate) fn clause_values(
    cs: &[Clause],
    given: &Given<'_>,
    walk: &mut Walk,
) -> Result<Parts, TypeFault>
    requires spelled { All (IsClause given.now.tokens.now (length given.now.spellings.now) walk.old.names.height) cs.now }
    ensures used { OnOk result (IsUsedIn (given_of given.now) walk.old.types walk.new.types) }
    ensures names { OnOk result (walk.new.names ≡ walk.old.names) }
    ensures typed { IfOk result (λ p. AllValues (given_of given.now) walk.new.types walk.old.names cs.now p.exprs p.types) }
    ensures breaks { IfErr result (IsRule (λ rule at_line. BrokenValues (given_of given.now) walk.old.types walk.old.names cs.now rule at_line)) }
    ensures count { IfOk result (λ p. length p.types ≡ length cs.now) }
{
    let mut values = Parts::new(given.alloc);
    for c in cs {
        clause_value(c, &mut values, given, walk)?;
    }
    Ok(values)
}

/// Types the value of a clause and its mask: rule 23, on the clause's line, at a mask that is no
/// boolean.
#[cycle(walk)]
fn clause_value(
    c: &Clause,
    values: &mut Parts,
    given: &Given<'_>,
    walk: &mut Walk,
) -> Result<(), TypeFault>
    requires spelled { IsClause given.now.tokens.now (length given.now.spellings.now) walk.old.names.height c.now }
    ensures used { OnOk result (IsUsedIn (given_of given.now) walk.old.types walk.new.types) }
    ensures names { OnOk result (walk.new.names ≡ walk.old.names) }
    ensures adds { OnOk result (Adds (parts_of values.old) (parts_of values.new) (AllValues (given_of given.now) walk.new.types walk.old.names (c.now ∷ []))) }
    ensures breaks { IfErr result (IsRule (λ rule at_line. BrokenValues (given_of given.now) walk.old.types walk.old.names (c.now ∷ []) rule at_line)) }
    ensures count { OnOk result (length values.new.types ≡ length values.old.types + 1) }
{
    let Clause {
        line,
        value,
        mask,
        ..
    } = c;
    one(value, values, given, walk)?;
    match mask {
        Some(mask) => {
            one(&mask.test, values, given, walk)?;
            walk.types.holds();
            end_mask(values, *line)
        }
        None => Ok(()),
    }
}

/// Tests that the last value is a boolean, and keeps it without its type.
fn end_mask(values: &mut Parts, line: u32) -> Result<(), TypeFault>
    ensures types { OnOk result (values.old.types ≡ values.new.types ++ 0 ∷ []) }
    ensures exprs { OnOk result (values.new.exprs ≡ values.old.exprs) }
    ensures breaks { IfErr result (IsRule (λ rule at_line. EndsFalse values.old.types line rule at_line)) }
{
    match values.types.pop() {
        Some(BOOLEAN) => Ok(()),
        _ => Err(TypeFault::Rule { rule: 23, line }),
    }
}

/// What the clauses of a loop on a line make of values of these types, with their masks where they
/// are `masked`: rule 23, on a clause's line, at a clause that takes no values of the type; rule 4,
/// on the loop's line, at a type that is too deep.
pub(crate) fn made_of(
    line: u32,
    cs: &[Clause],
    values: &[usize],
    is_masked: bool,
    given: &Given<'_>,
    walk: &mut Walk,
) -> Result<Folds, TypeFault>
    ensures used { OnOk result (IsUsedIn (given_of given.now) walk.old.types walk.new.types) }
    ensures names { OnOk result (walk.new.names ≡ walk.old.names) }
    ensures made { IfOk result (λ m. AllMade walk.new.types cs.now is_masked values.now (folds_of m)) }
    ensures breaks { IfErr result (IsRule (λ rule at_line. (groups : ℕ) → BrokenMade (given_of given.now) walk.old.types (suc groups) line cs.now values.now rule at_line)) }
    ensures some { IfOk result (λ m. 1 ≤ length cs.now → 1 ≤ length values.now → 1 ≤ length m.types) }
{
    let mut made = Folds {
        forms: Seq::new(given.alloc),
        types: Seq::new(given.alloc),
        is_deep: false,
    };
    let mut place = 0;
    while place < cs.len() && place < values.len() {
        fold(&cs[place], values[place], is_masked, &mut made, walk)?;
        place += 1;
    }
    if made.is_deep {
        return Err(TypeFault::Rule { rule: 4, line });
    }
    Ok(made)
}

/// Adds what a clause makes of values of a type.
fn fold(
    c: &Clause,
    value: usize,
    is_masked: bool,
    made: &mut Folds,
    walk: &mut Walk,
) -> Result<(), TypeFault>
    ensures used { OnOk result ((g : LawGiven) → IsUsedIn g walk.old.types walk.new.types) }
    ensures names { walk.new.names ≡ walk.old.names }
    ensures added { OnOk result (made.new.is_deep ≡ false → (made.old.is_deep ≡ false) × FoldAdded walk.old.types walk.new.types c.now is_masked value (folds_of made.old) (folds_of made.new)) }
    ensures breaks { IfErr result (IsRule (λ rule at_line. (g : LawGiven) (groups from : ℕ) → BrokenMade g walk.old.types (suc groups) from (c.now ∷ []) (value ∷ []) rule at_line)) }
    ensures deep { OnOk result (made.new.is_deep ≡ true → (made.old.is_deep ≡ true) ⊎ ((g : LawGiven) (groups from : ℕ) → BrokenMade g walk.old.types (suc groups) from (c.now ∷ []) (value ∷ []) 4 from)) }
{
    let mask = mask_of(c, is_masked);
    walk.types.holds();
    match clause(&mut walk.types, c.kind, mask, value) {
        Ok(kept) => {
            keep(kept, made)?;
            Ok(())
        }
        Err(refused) => refuse(refused, c.line, made),
    }
}

/// A clause on a line that is refused; of too deep a type only a note is kept, since a later
/// clause may take no values of the type.
fn refuse(refused: Refused, line: u32, made: &mut Folds) -> Result<(), TypeFault>
    ensures deep { OnOk result ((refused ≡ Refused.Rule 4) × (made.new.is_deep ≡ true)) }
    ensures breaks { IfErr result (IsRule (λ rule at_line. (refused ≡ Refused.Rule rule) × (rule ≢ 4) × (at_line ≡ line))) }
{
    let Refused::Rule(rule) = refused else {
        return Err(TypeFault::NoMemory);
    };
    if rule != DEEP {
        return Err(TypeFault::Rule { rule, line });
    }
    made.is_deep = true;
    Ok(())
}

/// The mask of a clause, where it counts: whether it is an `unless`.
fn mask_of(c: &Clause, is_masked: bool) -> Option<bool>
    ensures { result ≡ mask_of c.now is_masked }
{
    if !is_masked {
        return None;
    }
    match &c.mask {
        Some(mask) => Some(mask.is_unless),
        None => None,
    }
}

/// Adds a clause.
fn keep(kept: Made, made: &mut Folds) -> Result<(), NoMemory>
    ensures forms { OnOk result (made.new.forms ≡ made.old.forms ++ kept.form ∷ []) }
    ensures types { OnOk result (made.new.types ≡ made.old.types ++ kept.ty ∷ []) }
    ensures deep { OnOk result (made.new.is_deep ≡ made.old.is_deep) }
{
    made.forms.add(kept.form)?;
    made.types.add(kept.ty)
}
