//! The values of one clause.
ghost use Rattle.std.specs.Prelude.{◌≡◌, ◌+◌, ◌<◌, ◌^◌, List, [], ◌∷◌, ◌++◌, None, OnOk, OnErr};
ghost use Rattle.loop_folds.specs.Clauses.{Cell, no_cells, fold_value};
ghost use Rattle.loop_folds.specs.Makings.{folding_of, counted, IsMaking};

use crate::folding::Folding;
use crate::making::Making;
use crate::masking::Keep;
use flow_value::{Cause, NoMemory, Seq, Val};
use std::alloc::Global;
use std::marker::Model;
use std::snapshot::Snapshot;

/// The values of one clause of a loop so far, as far as they matter: a reduction keeps no list, and
/// an array or a stream one value more than it may have. Contracts see what the clause makes of its
/// values, and each value with what its mask says, in order.
#[derive(Drop)]
pub struct Clause {
    failure: Option<Cause>,
    making: Making,
    // Contracts alone read them: a snapshot has no bytes.
    cells: Seq<Snapshot<(Val, Keep)>>,
}

impl Model for Clause {
    ghost use Rattle.flow_value.specs.contracts.value.Val as val_row;
    ghost use Rattle.loop_folds.specs.contracts.folding.Folding as folding_row;
    ghost use Rattle.loop_folds.specs.contracts.masking.Keep as keep_row;
    ghost use Rattle.loop_folds.specs.Clauses.{ClauseCells, clause_cells, cells_code};
    ghost use Rattle.loop_folds.specs.Makings.{folding_of, told, IsMaking};

    ghost Value = { ClauseCells };

    ghost coded = { cells_code folding_row.the_row.coded val_row.the_row.coded keep_row.the_row.coded };

    ghost view = { λ c. clause_cells (folding_of c.making) (told c.cells) };

    ghost invariant = { λ c. IsMaking c.failure c.making (told c.cells) };
}

impl Clause {
    /// No values; takes no memory.
    pub fn new(alloc: Global, folding: Folding) -> Clause
        ensures { result ≡ no_cells folding }
    {
        Clause {
            failure: None,
            making: Making::nothing(alloc, folding),
            cells: Seq::new(alloc),
        }
    }

    /// Adds a value at the end. A value that is not kept, or that follows a mask that is an error, is
    /// let go at once. On want of memory it is refused, and all is as it was.
    pub fn put(&mut self, v: Val, keep: Keep) -> Result<(), NoMemory>
        ensures added { OnOk result (self.new.cells ≡ self.old.cells ++ (v, keep) ∷ []) }
        ensures folding { self.new.folding ≡ self.old.folding }
        ensures refused { OnErr result (self.new ≡ self.old) }
    {
        let before = self.cells.len();
        let cell = (v, keep);
        self.cells.add(Snapshot::of(&cell))?;
        let _counted = self.cells.len();
        let (value, said) = cell;
        match put_cell(&mut self.failure, &mut self.making, value, said) {
            Ok(()) => Ok(()),
            Err(error) => {
                self.cells.truncate(before);
                Err(error)
            }
        }
    }

    /// The value of the clause, arrays from a lower bound: the error of the first mask that is one,
    /// and else what is made of the kept values. It takes no memory.
    pub fn done(self, lower: i64) -> Val
        ensures { result ≡ fold_value self.folding lower self.cells }
    {
        let Clause {
            failure,
            making,
            cells: _,
        } = self;
        match failure {
            Some(cause) => Val::Err(cause),
            None => making.value(lower),
        }
    }
}

/// Adds a value to what is kept, if it is kept and no mask before it was an error. On want of
/// memory all is as it was.
fn put_cell(
    failure: &mut Option<Cause>,
    making: &mut Making,
    v: Val,
    keep: Keep,
) -> Result<(), NoMemory>
    requires { failure.old ≡ None → counted making.old + 1 < 2 ^ 64 }
    ensures added { OnOk result ((cells : List Cell) → IsMaking failure.old making.old cells → IsMaking failure.new making.new (cells ++ (v, keep) ∷ [])) }
    ensures folding { folding_of making.new ≡ folding_of making.old }
    ensures refused { OnErr result ((failure.new ≡ failure.old) × (making.new ≡ making.old)) }
{
    match *failure {
        Some(_) => Ok(()),
        None => match keep {
            Keep::Kept => {
                making.put(v)?;
                Ok(())
            }
            Keep::Dropped => Ok(()),
            Keep::Failed(cause) => {
                *failure = Some(cause);
                Ok(())
            }
        },
    }
}
