//! The labels of types, which are entered where they are not there yet.
ghost use Rattle.std.specs.Prelude.{◌≡◌, ◌<◌, ℕ, ◌⊎◌, Some, length, get_or, [], IfOk, IfErr, OnOk};
ghost use Rattle.lowering.specs.Types.{enter, entry, labelled, named, members, over, form_label, label_within, type_label};
ghost use Rattle.type_labels.specs.Keys.{before};
ghost use Rattle.type_labels.specs.Known.{known_at, AreKnown};
ghost use Rattle.lowering.specs.TooMany.{most_types};

use crate::known::Known;
use crate::table::{LabelFault, Table};
use flow_value::{Name, NoMemory, Seq, item_at};
use std::alloc::Global;
use type_table::{Form, Member, Types};

/// Types are at most so deep.
pub(crate) const DEEPEST: u32 = 64;

/// Keeps the label of a type that is at most so deep, and gives it.
fn kept(known: &mut Known, depth: u32, ty: usize, label: u32) -> Result<u32, LabelFault>
    ensures is { IfOk result (λ l. l ≡ label) }
    ensures known { OnOk result ((d t l : ℕ) → known_at known.new d t ≡ Some l → (known_at known.old d t ≡ Some l) ⊎ ((d ≡ depth) × (t ≡ ty) × (l ≡ label))) }
    ensures fault { IfErr result (λ e. e ≡ LabelFault.NoMemory) }
{
    match known.keep(depth, ty, label) {
        Ok(()) => Ok(label),
        Err(NoMemory) => Err(LabelFault::NoMemory),
    }
}

impl Table {
    /// The label of a type, by its number in a program's table of types.
    pub fn type_label(
        &mut self,
        types: &Types,
        names: &[Name],
        known: &mut Known,
        ty: usize,
    ) -> Result<u32, LabelFault>
        requires { AreKnown types.now names.now known.old self.old }
        ensures ok { IfOk result (λ label. type_label types.now names.now ty self.old ≡ labelled label self.new) }
        ensures too_many { IfErr result (λ e. e ≡ LabelFault.TooMany → most_types < length (type_label types.now names.now ty self.old).table) }
        ensures known { OnOk result (AreKnown types.now names.now known.new self.new) }
    {
        self.label_within(types, names, known, DEEPEST, ty)
    }

    /// The label of a type that is at most so deep.
    #[cycle(types)]
    pub(crate) fn label_within(
        &mut self,
        types: &Types,
        names: &[Name],
        known: &mut Known,
        depth: u32,
        ty: usize,
    ) -> Result<u32, LabelFault>
        requires { AreKnown types.now names.now known.old self.old }
        ensures ok { IfOk result (λ label. label_within types.now names.now depth ty self.old ≡ labelled label self.new) }
        ensures too_many { IfErr result (λ e. e ≡ LabelFault.TooMany → most_types < length (label_within types.now names.now depth ty self.old).table) }
        ensures known { OnOk result (AreKnown types.now names.now known.new self.new) }
    {
        if depth == 0 {
            return Ok(0);
        }
        if let Some(label) = known.label(depth, ty) {
            return Ok(label);
        }
        let Some(form) = types.form(ty) else {
            return Ok(0);
        };
        match self.form_label(types, names, known, depth - 1, form) {
            Ok(label) => kept(known, depth, ty, label),
            Err(fault) => Err(fault),
        }
    }

    /// The label of a type of this form, the parts of which are at most so deep.
    #[cycle(types)]
    fn form_label(
        &mut self,
        types: &Types,
        names: &[Name],
        known: &mut Known,
        depth: u32,
        form: &Form,
    ) -> Result<u32, LabelFault>
        requires { AreKnown types.now names.now known.old self.old }
        ensures ok { IfOk result (λ label. form_label types.now names.now (label_within types.now names.now depth) (Some form.now) self.old ≡ labelled label self.new) }
        ensures too_many { IfErr result (λ e. e ≡ LabelFault.TooMany → most_types < length (form_label types.now names.now (label_within types.now names.now depth) (Some form.now) self.old).table) }
        ensures known { OnOk result (AreKnown types.now names.now known.new self.new) }
    {
        match form {
            Form::Boolean => Ok(1),
            Form::Character => Ok(2),
            Form::Integer => Ok(3),
            Form::Null => Ok(4),
            Form::Array(ty) => self.sequence_label(types, names, known, depth, 0, *ty),
            Form::Stream(ty) => self.sequence_label(types, names, known, depth, 6, *ty),
            Form::Record(parts) => {
                let first = self.members_label(types, names, known, depth, 2, parts.as_slice())?;
                self.over(5, first)
            }
            Form::Union(parts) => {
                let first = self.members_label(types, names, known, depth, 7, parts.as_slice())?;
                self.over(9, first)
            }
        }
    }

    /// The label of the arrays or streams of a type.
    #[cycle(types)]
    pub(crate) fn sequence_label(
        &mut self,
        types: &Types,
        names: &[Name],
        known: &mut Known,
        depth: u32,
        code: u32,
        ty: usize,
    ) -> Result<u32, LabelFault>
        requires { AreKnown types.now names.now known.old self.old }
        ensures ok { IfOk result (λ label. over types.now names.now code (label_within types.now names.now depth ty self.old) ≡ labelled label self.new) }
        ensures too_many { IfErr result (λ e. e ≡ LabelFault.TooMany → most_types < length (over types.now names.now code (label_within types.now names.now depth ty self.old)).table) }
        ensures known { OnOk result (AreKnown types.now names.now known.new self.new) }
    {
        let element = self.label_within(types, names, known, depth, ty)?;
        self.over(code, element)
    }

    /// The label of the first of the members, 0 where there is none. They are entered from the last on.
    #[cycle(types)]
    fn members_label(
        &mut self,
        types: &Types,
        names: &[Name],
        known: &mut Known,
        depth: u32,
        code: u32,
        parts: &[Member],
    ) -> Result<u32, LabelFault>
        requires { AreKnown types.now names.now known.old self.old }
        ensures ok { IfOk result (λ label. members (label_within types.now names.now depth) code (named types.now names.now parts.now) self.old ≡ labelled label self.new) }
        ensures too_many { IfErr result (λ e. e ≡ LabelFault.TooMany → most_types < length (members (label_within types.now names.now depth) code (named types.now names.now parts.now) self.old).table) }
        ensures known { OnOk result (AreKnown types.now names.now known.new self.new) }
    {
        let mut rest = 0;
        let mut at = parts.len();
        while at > 0 {
            at -= 1;
            match self.next_label(types, names, known, depth, code, &parts[at], rest) {
                Ok(label) => rest = label,
                Err(fault) => return Err(fault),
            }
        }
        Ok(rest)
    }

    /// The label of a member, before the members with the label `rest`.
    #[cycle(types)]
    fn next_label(
        &mut self,
        types: &Types,
        names: &[Name],
        known: &mut Known,
        depth: u32,
        code: u32,
        part: &Member,
        rest: u32,
    ) -> Result<u32, LabelFault>
        requires { AreKnown types.now names.now known.old self.old }
        ensures ok { IfOk result (λ label. before (label_within types.now names.now depth) code (get_or names.now part.now.name []) part.now.ty (labelled rest self.old) ≡ labelled label self.new) }
        ensures too_many { IfErr result (λ e. e ≡ LabelFault.TooMany → most_types < length (before (label_within types.now names.now depth) code (get_or names.now part.now.name []) part.now.ty (labelled rest self.old)).table) }
        ensures known { OnOk result (AreKnown types.now names.now known.new self.new) }
    {
        let ty = self.label_within(types, names, known, depth, part.ty)?;
        self.member(code, ty, rest, names, part.name)
    }

    /// The label of a member of this name.
    fn member(
        &mut self,
        code: u32,
        ty: u32,
        rest: u32,
        names: &[Name],
        name: u32,
    ) -> Result<u32, LabelFault>
        ensures ok { IfOk result (λ label. enter (entry code ty rest (get_or names.now name [])) self.old ≡ labelled label self.new) }
        ensures too_many { IfErr result (λ e. e ≡ LabelFault.TooMany → most_types < length (enter (entry code ty rest (get_or names.now name [])) self.old).table) }
    {
        let Ok(name) = self.spelling(names, name) else {
            return Err(LabelFault::NoMemory);
        };
        self.enter((code, ty, rest, name))
    }

    /// The spelling of a name, by its number.
    fn spelling(&self, names: &[Name], name: u32) -> Result<Vec<u8>, NoMemory>
        ensures { IfOk result (λ text. text.items ≡ get_or names.now name []) }
    {
        let alloc = self.allocator();
        match item_at(names, name as usize) {
            Some(name) => Ok(Seq::from_slice(alloc, name.as_slice())?.into_vec()),
            None => Ok(Vec::new(alloc)),
        }
    }

    /// The label of what stands over one other type.
    fn over(&mut self, code: u32, ty: u32) -> Result<u32, LabelFault>
        ensures ok { IfOk result (λ label. enter (entry code ty 0 []) self.old ≡ labelled label self.new) }
        ensures too_many { IfErr result (λ e. e ≡ LabelFault.TooMany → most_types < length (enter (entry code ty 0 []) self.old).table) }
    {
        let name = Vec::new(self.allocator());
        self.enter((code, ty, 0, name))
    }
}
