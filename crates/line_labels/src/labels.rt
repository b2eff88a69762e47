//! The labels of what lines carry.
ghost use Rattle.std.specs.Prelude.{◌≡◌, ◌<◌, ◌+◌, ◌∷◌, ◌++◌, ℕ, [], None, length, get_or, All, IfOk, IfErr, OnOk};
ghost use Rattle.type_labels.specs.Known.{known_at};
ghost use Rattle.lowering.specs.Types.{basics, labelled, carried_label, with_types};
ghost use Rattle.lowering.specs.TooMany.{most_types};
ghost use Rattle.line_labels.specs.Labels.{label_in, AreKept};

use crate::needs::Needs;
use flow_value::{Name, Seq, item_at};
use lowering::Carried;
use std::alloc::Global;
use type_labels::{Known, LabelFault, Table};
use type_table::Types;
use typed_tree::Function;

/// What lines carry, each thing once, with the labels of the first so many, and the table that has
/// these.
#[derive(Drop)]
pub struct Labels {
    /// What lines carry.
    pub needs: Needs,
    /// The labels of the first so many.
    pub labels: Seq<u32>,
    /// The table of types.
    pub table: Table,
    /// The labels of types that were found there.
    pub known: Known,
}

impl Labels {
    /// The basic types alone.
    pub fn new(alloc: Global) -> Result<Labels, LabelFault>
        ensures needs { IfOk result (λ l. l.needs ≡ []) }
        ensures labels { IfOk result (λ l. l.labels ≡ []) }
        ensures table { IfOk result (λ l. l.table ≡ basics) }
        ensures known { IfOk result (λ l. (depth ty : ℕ) → known_at l.known depth ty ≡ None) }
    {
        let table = Table::new(alloc)?;
        Ok(Labels {
            needs: Needs::new(alloc),
            labels: Seq::new(alloc),
            table,
            known: Known::new(alloc),
        })
    }

    /// The label of what a line carries.
    pub fn label(&self, carried: Carried) -> u32
        ensures { result ≡ label_in self.now carried }
    {
        match self.needs.place(carried) {
            Some(place) => self.label_at(place),
            None => 0,
        }
    }

    /// The label of the thing of a place, 0 where it has none.
    fn label_at(&self, place: usize) -> u32
        ensures { result ≡ get_or self.now.labels place 0 }
    {
        match item_at(self.labels.as_slice(), place) {
            Some(label) => *label,
            None => 0,
        }
    }

    /// Enters whatever has no label yet.
    pub fn enter(
        &mut self,
        types: &Types,
        names: &[Name],
        functions: &[Function],
    ) -> Result<(), LabelFault>
        requires { AreKept types.now names.now functions.now self.old }
        ensures kept { OnOk result (AreKept types.now names.now functions.now self.new) }
        ensures needs { OnOk result (self.new.needs ≡ self.old.needs) }
        ensures table { OnOk result (self.new.table ≡ with_types types.now names.now functions.now self.old.needs basics) }
        ensures labels { OnOk result (All (λ c. carried_label types.now names.now functions.now c self.new.table ≡ labelled (label_in self.new c) self.new.table) self.new.needs) }
        ensures too_many { IfErr result (λ e. e ≡ LabelFault.TooMany → most_types < length (with_types types.now names.now functions.now self.old.needs basics)) }
    {
        while self.labels.len() < self.needs.len() {
            match self.enter_next(types, names, functions) {
                Ok(()) => (),
                Err(fault) => return Err(fault),
            }
        }
        Ok(())
    }

    /// Enters the first thing that has no label yet.
    fn enter_next(
        &mut self,
        types: &Types,
        names: &[Name],
        functions: &[Function],
    ) -> Result<(), LabelFault>
        requires kept { AreKept types.now names.now functions.now self.old }
        requires some { length self.old.labels < length self.old.needs }
        ensures kept { OnOk result (AreKept types.now names.now functions.now self.new) }
        ensures needs { OnOk result (self.new.needs ≡ self.old.needs) }
        ensures more { OnOk result (length self.new.labels ≡ length self.old.labels + 1) }
        ensures too_many { IfErr result (λ e. e ≡ LabelFault.TooMany → most_types < length (with_types types.now names.now functions.now self.old.needs basics)) }
    {
        let Some(carried) = self.needs.get(self.labels.len()) else {
            unreachable!()
        };
        match self
            .table
            .carried_label(types, names, &mut self.known, functions, carried)
        {
            Ok(label) => {
                self.keep(label)?;
                Ok(())
            }
            Err(fault) => Err(fault),
        }
    }

    /// Keeps a label.
    fn keep(&mut self, label: u32) -> Result<(), LabelFault>
        ensures needs { OnOk result (self.new.needs ≡ self.old.needs) }
        ensures labels { OnOk result (self.new.labels ≡ self.old.labels ++ label ∷ []) }
        ensures table { OnOk result (self.new.table ≡ self.old.table) }
        ensures known { OnOk result (self.new.known ≡ self.old.known) }
        ensures fault { IfErr result (λ e. e ≡ LabelFault.NoMemory) }
    {
        match self.labels.add(label) {
            Ok(()) => Ok(()),
            Err(_) => Err(LabelFault::NoMemory),
        }
    }
}
