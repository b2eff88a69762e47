//! What is lent.
ghost use Rattle.std.specs.Prelude.{◌≡◌, true, IfOk};
ghost use Rattle.flow_value.specs.declared.value.Val.TheViews.{out-Val};
ghost use Rattle.run_store.specs.Carried.{Carried};
ghost use Rattle.run_store.specs.Stored as stored;
ghost use Rattle.run_cells.specs.Held.{held, view_from};
ghost use Rattle.run_cells.specs.Sights.{seen_value};

use crate::boxed::Boxed;
use crate::cell::{Cell, Lent};
use crate::seen::Seen;
use flow_value::{NoMemory, Seq, Val};
use std::alloc::Global;

/// Whether it has no parts: then a copy of it is not counted.
pub fn is_plain(seen: Seen<'_>) -> bool
    ensures { result ≡ stored.is_plain (seen_value seen.entry) }
{
    match seen {
        Seen::Error(_) => true,
        Seen::Int(_) => true,
        Seen::Bool(_) => true,
        Seen::Char(_) => true,
        Seen::Null => true,
        Seen::UnionInt(_, _) => false,
        Seen::Value(v) => !has_parts(v),
        Seen::Elements(_) => false,
        Seen::Rising(_, _) => false,
        Seen::Spoiled(_) => true,
        Seen::Name(_) => true,
        Seen::Unfilled => true,
    }
}

fn has_parts(v: &Val) -> bool
    ensures { result ≡ stored.has_parts (out-Val v.now) }
{
    match v {
        Val::Arr(_) => true,
        Val::Rec(_) => true,
        Val::Uni(_, _) => true,
        Val::Stream(_) => true,
        _ => false,
    }
}

/// A cell that refers to the owner of what stands in a cell, which is the one at this place.
pub fn lent_at(alloc: Global, cell: &Cell, place: usize) -> Result<Cell, NoMemory>
    ensures { IfOk result (λ c. (k : Carried) → stored.is_full (held cell.now) ≡ true → held c ≡ stored.placed true (stored.lent_by place (held cell.now)) k) }
{
    match cell {
        Cell::Lent(owner) => Ok(Cell::Lent(*owner)),
        Cell::LentPart(lent) => Ok(Cell::LentPart(Boxed::new(alloc, again(alloc, lent.get())?)?)),
        _ => Ok(Cell::Lent(place)),
    }
}

/// The owner of what stands in a cell, which is the one at this place, and the way from there.
pub fn owner_at(alloc: Global, cell: &Cell, place: usize) -> Result<Lent, NoMemory>
    ensures { IfOk result (λ l. stored.is_full (held cell.now) ≡ true → stored.lent_by place (held cell.now) ≡ stored.Loan l.owner (view_from stored.Whole l.parts)) }
{
    match cell {
        Cell::Lent(owner) => Ok(whole(alloc, *owner)),
        Cell::LentPart(lent) => again(alloc, lent.get()),
        _ => Ok(whole(alloc, place)),
    }
}

fn whole(alloc: Global, owner: usize) -> Lent
    ensures owner { result.owner ≡ owner }
    ensures parts { view_from stored.Whole result.parts ≡ stored.Whole }
{
    Lent {
        owner,
        parts: Seq::new(alloc),
    }
}

fn again(alloc: Global, lent: &Lent) -> Result<Lent, NoMemory>
    ensures { IfOk result (λ l. (l.owner ≡ lent.now.owner) × (l.parts ≡ lent.now.parts)) }
{
    Ok(Lent {
        owner: lent.owner,
        parts: Seq::from_slice(alloc, lent.parts.as_slice())?,
    })
}
