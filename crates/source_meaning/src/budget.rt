//! Steps, values that are given, and frames that are put.
ghost use Rattle.std.specs.Prelude.{◌≡◌, ◌+◌, ◌<◌, ◌≤◌, [], ◌∷◌, ◌++◌, OnOk, IsTrue};
ghost use Rattle.source_meaning.specs.Pending.{load, listing_weight};
ghost use Rattle.source_meaning.specs.Tasks.{Puts, list_task, operand_task, define_task};
ghost use Rattle.source_meaning.specs.Slots.{given_values};

use crate::slots::Given;
use crate::state::{After, Frame, Listing, Operating, State, Work};
use flow_value::{Items, NoMemory, Seq};
use std::alloc::Global;
use typed_tree::TypedExpr;

impl<'a> State<'a> {
    /// Counts so many steps, unless the limit is passed.
    pub fn count(&mut self, limit: u64, steps: usize) -> bool
        ensures counted { IsTrue result → self.new.steps ≡ self.old.steps + steps }
        ensures room { IsTrue result → self.old.steps + steps ≤ limit }
        ensures full { ¬ IsTrue result → limit < self.old.steps + steps }
        ensures same { ¬ IsTrue result → self.new.steps ≡ self.old.steps }
        ensures frames { self.new.frames ≡ self.old.frames }
        ensures names { self.new.names ≡ self.old.names }
        ensures given { self.new.given ≡ self.old.given }
    {
        if self.steps <= limit && steps as u64 <= limit - self.steps {
            self.steps += steps as u64;
            true
        } else {
            false
        }
    }

    /// Has a list of expressions evaluated next.
    pub fn list(
        &mut self,
        alloc: Global,
        after: After<'a>,
        left: &'a [TypedExpr],
    ) -> Result<(), NoMemory>
        ensures means { OnOk result (Puts (list_task left.now after.entry) self.old self.new) }
        ensures load { OnOk result (load self.new.frames.items ≡ load self.old.frames.items + listing_weight after.entry left.now) }
        ensures names { self.new.names ≡ self.old.names }
        ensures steps { self.new.steps ≡ self.old.steps }
        ensures given { OnOk result (given_values self.new.given ≡ []) }
    {
        let frame = Frame::Listing(Listing {
            after,
            left,
            done: Items::new(alloc),
        });
        self.put(frame)
    }

    /// Has operands evaluated next.
    pub fn operands(
        &mut self,
        alloc: Global,
        work: Work<'a>,
        left: &'a [TypedExpr],
    ) -> Result<(), NoMemory>
        ensures means { OnOk result (Puts (operand_task left.now work.entry) self.old self.new) }
        ensures load { OnOk result (load self.new.frames.items ≡ load self.old.frames.items + 1) }
        ensures names { self.new.names ≡ self.old.names }
        ensures steps { self.new.steps ≡ self.old.steps }
        ensures given { OnOk result (given_values self.new.given ≡ []) }
    {
        let frame = Frame::Operating(Operating {
            work,
            left,
            slots: Seq::new(alloc),
        });
        self.put(frame)
    }

    /// Puts a frame, to which no values are given yet.
    fn put(&mut self, frame: Frame<'a>) -> Result<(), NoMemory>
        ensures frames { OnOk result (self.new.frames.items ≡ self.old.frames.items ++ frame.entry ∷ []) }
        ensures names { self.new.names ≡ self.old.names }
        ensures steps { self.new.steps ≡ self.old.steps }
        ensures given { OnOk result (given_values self.new.given ≡ []) }
    {
        match self.frames.push(frame) {
            Ok(()) => {
                self.given = Given::Nothing;
                Ok(())
            }
            Err(_) => Err(NoMemory),
        }
    }

    /// Has a frame that waits for definitions put, and then these definitions made.
    pub fn define(
        &mut self,
        alloc: Global,
        after: After<'a>,
        left: &'a [TypedExpr],
        defs: &'a [Seq<TypedExpr>],
    ) -> Result<(), NoMemory>
        ensures means { OnOk result (Puts (define_task defs.now left.now after.entry) self.old self.new) }
        ensures load { OnOk result (load self.new.frames.items ≡ load self.old.frames.items + listing_weight after.entry left.now + 2) }
        ensures names { self.new.names ≡ self.old.names }
        ensures steps { self.new.steps ≡ self.old.steps }
        ensures given { OnOk result (given_values self.new.given ≡ []) }
    {
        self.list(alloc, after, left)?;
        self.list(alloc, After::Bind(defs), &[])
    }
}
