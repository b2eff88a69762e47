//! The clauses of a loop.
ghost use Rattle.std.specs.Prelude.{◌≡◌, ◌+◌, List, ◌∷◌, drop, IfOk, OnOk};
ghost use Rattle.loop_folds.specs.Clauses.{Cell};
ghost use Rattle.loop_folds.specs.Masks.{keep_of};
ghost use Rattle.meaning.specs.Rows.{no_rows, span, with_row, made};
ghost use Rattle.meaning.specs.Words.{value_at};
ghost use Rattle.source_meaning.specs.Loops.{with_cells_from};

use flow_value::{Cause, Items, NoMemory, Val};
use loop_folds::{Clause, Keep, Masking, keep};
use std::alloc::Global;
use typed_tree::ClauseForm;

/// The clauses of a loop before its first place.
pub fn no_rows(alloc: Global, forms: &[ClauseForm]) -> Result<Vec<Clause>, NoMemory>
    ensures { IfOk result (λ clauses. clauses.items ≡ no_rows forms.now) }
{
    let mut clauses = Vec::with_capacity(alloc, forms.len())?;
    for form in forms {
        clauses.push(Clause::new(alloc, form.folding))?;
    }
    Ok(clauses)
}

/// The value of a clause at a place, and what its mask says of it, from the front of the values
/// that are left.
fn next_cell(left: &mut Items, masking: Masking) -> (Val, Keep)
    ensures value { result.0 ≡ value_at left.old 0 }
    ensures said { result.1 ≡ keep_of masking (value_at left.old 1) }
    ensures left { left.new ≡ drop (span masking) left.old }
{
    let v = next_value(left);
    match masking {
        Masking::All => (v, Keep::Kept),
        _ => {
            let mask = next_value(left);
            (v, keep(masking, &mask))
        }
    }
}

/// The first of the values that are left.
fn next_value(left: &mut Items) -> Val
    ensures value { result ≡ value_at left.old 0 }
    ensures left { left.new ≡ drop 1 left.old }
{
    match left.take_first() {
        Some(v) => v,
        None => Val::Err(Cause::Explicit),
    }
}

/// Adds a value to the clause at a place, if there is one.
fn put_at(clauses: &mut Vec<Clause>, place: usize, v: Val, said: Keep) -> Result<(), NoMemory>
    ensures { OnOk result ((more : List Cell) → with_cells_from (place + 1) clauses.new.items more ≡ with_cells_from place clauses.old.items ((v, said) ∷ more)) }
{
    if place < clauses.len() {
        clauses[place].put(v, said)?;
    }
    Ok(())
}

/// Adds the values of one place to the clauses.
pub fn add_row(
    forms: &[ClauseForm],
    clauses: &mut Vec<Clause>,
    values: Items,
) -> Result<(), NoMemory>
    ensures { OnOk result (clauses.new.items ≡ with_row forms.now clauses.old.items values) }
{
    let mut left = values;
    for (place, form) in forms.iter().enumerate() {
        let (v, said) = next_cell(&mut left, form.masking);
        put_at(clauses, place, v, said)?;
    }
    Ok(())
}

/// The value of each clause, arrays from a lower bound.
pub fn made(alloc: Global, clauses: Vec<Clause>, lower: i64) -> Result<Items, NoMemory>
    ensures { IfOk result (λ values. values ≡ made lower clauses.items) }
{
    let mut values = Items::new(alloc);
    for clause in clauses {
        values.add(clause.done(lower))?;
    }
    Ok(values)
}
